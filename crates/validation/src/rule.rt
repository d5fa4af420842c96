// What every rule answers.
ghost use Rattle.std.specs.Prelude.{◌≡◌, ℕ, ◌≤◌, Bool, false, length};
ghost use Rattle.held.specs.HeldData.{HeldData, places};
ghost use Rattle.held.specs.DataOf.{data_of};
ghost use Rattle.validation.specs.Places.{each};

use held::Held;

pub trait Rule {
    // The rule's own number: the bit that it sets at a place. A number and no enum, since a rule of another crate has
    // one of its own.
    const NUMBER: u8;

    ghost NUMBER: { ℕ };

    // Whether the rule questions a place of the data held.
    ghost meaning: { Self → HeldData → ℕ → Bool };

    // The two parameters are the question: a type for them would be no plainer.
    fn asks(&self, held: &Held<'_>, place: usize) -> bool
        ensures value { result ≡ meaning self.now (data_of held.now) place }
        ensures past { places (data_of held.now) ≤ place → result ≡ false };

    // Asks of every place at once: what `asks` says of place i goes to index i.
    #[tactic(auto, using(crate::proofs::Filled::filling))]
    fn ask_all(&self, held: &Held<'_>, answers: &mut [bool])
        ensures filled { answers.new ≡ each (length answers.old) (meaning self.now (data_of held.now)) }
    {
        for (place, answer) in answers.iter_mut().enumerate() {
            *answer = self.asks(held, place);
        }
    }
}
