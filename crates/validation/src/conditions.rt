// The two rules that go by what the meter said of a count.
ghost use Rattle.std.specs.Prelude.{ℕ};
ghost use Rattle.intervals.specs.declared.condition.Condition.{Condition};
ghost use Rattle.intervals.specs.declared.condition.Condition.TheVariants.{Overflow, TestMode};
ghost use Rattle.validation.specs.Conditions.{condition_questions};

use crate::rule::Rule;
use held::Held;
use intervals::Condition;

// A rule that questions the places of one condition.
pub trait ConditionCheck {
    const RULE_NUMBER: u8;

    ghost RULE_NUMBER: { ℕ };

    const CONDITION: Condition;

    ghost CONDITION: { Condition };
}

#[derive(Clone, Copy)]
pub struct OverflowCheck;

#[derive(Clone, Copy)]
pub struct TestModeCheck;

impl ConditionCheck for OverflowCheck {
    const RULE_NUMBER: u8 = 0;

    ghost RULE_NUMBER = { 0 };

    const CONDITION: Condition = Condition::Overflow;

    ghost CONDITION = { Overflow };
}

impl ConditionCheck for TestModeCheck {
    const RULE_NUMBER: u8 = 1;

    ghost RULE_NUMBER = { 1 };

    const CONDITION: Condition = Condition::TestMode;

    ghost CONDITION = { TestMode };
}

impl<C: ConditionCheck> Rule for C {
    const NUMBER: u8 = C::RULE_NUMBER;

    ghost NUMBER = { C.RULE_NUMBER };

    ghost meaning = { λ _. condition_questions C.CONDITION };

    #[tactic(auto, using(std::proofs::lemmas::Bool::Decides::nat_tests, std::proofs::lemmas::Option::gets))]
    fn asks(&self, held: &Held<'_>, place: usize) -> bool {
        // looked at where it lies: with a copy of it a pass over the cycle would take a quarter longer
        held.intervals
            .get(place)
            .is_some_and(|interval| interval.condition == C::CONDITION)
    }
}
