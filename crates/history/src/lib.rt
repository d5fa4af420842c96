// The law of runs, over the definitions of a book and its calls. Each function here does nothing but demand a theorem:
// its contract is the statement, and without the proof the crate is refused.

#![tactic(auto)]

ghost use Rattle.history.specs.Examples.{EachReached, Edited, Leading, Limited, Printed, ReachesAll, ReachesPosted, ReachesSettled, ReachesStatuses, Told, TwoDays, unsound_ways};
ghost use Rattle.history.specs.Law.{LawOfRuns};
ghost use Rattle.history.specs.Sanity.{LowestReturned, MarkedExactly, PostedIsClosed, RefusedAsListed, RefusedUnchanged, RulesComeFirst, SettledAgain, SettledOnce};
ghost use Rattle.history.specs.Statuses.{StatusesAreJudged};

// After every list of calls, what a book reports agrees with what was delivered, read, questioned and settled.
pub fn law_of_runs()
    ensures { LawOfRuns }
{}

// After every list of calls, each status agrees with the condition delivered, the rules awaited and what they questioned.
pub fn statuses_are_judged()
    ensures { StatusesAreJudged }
{}

// The theorems below keep the definitions honest.
pub fn refusals_change_nothing()
    ensures { RefusedUnchanged }
{}

pub fn refusals_are_as_listed()
    ensures { RefusedAsListed }
{}

pub fn refusals_come_in_order()
    ensures lowest { LowestReturned }
    ensures posted { PostedIsClosed }
    ensures rules { RulesComeFirst }
{}

pub fn marks_are_exact()
    ensures { MarkedExactly }
{}

pub fn calls_make_histories()
    ensures { Leading }
{}

pub fn examples_come_out()
    ensures limits { Limited }
    ensures printed { Printed }
    ensures days { TwoDays }
    ensures edited { Edited }
    ensures told { Told }
    ensures unsound { EachReached unsound_ways }
{}

pub fn each_outcome_is_reached()
    ensures statuses { ReachesStatuses }
    ensures settled { ReachesSettled }
    ensures posted { ReachesPosted }
    ensures refusals { ReachesAll }
{}

pub fn regions_are_settled_once()
    ensures { SettledOnce }
{}

pub fn withdrawn_regions_settle_again()
    ensures { SettledAgain }
{}
