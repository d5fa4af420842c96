// The worked cases of the rules, proved of the definitions that every contract cites.

#![tactic(auto)]

ghost use Rattle.std.specs.Prelude.{◌≡◌};
ghost use Rattle.cases.specs.Worked.{Worked};

// How many worked cases there are; the contract has them all.
pub fn worked_cases() -> u8
    ensures cases { Worked }
    ensures count { result ≡ 14 }
{
    14
}
