// The sharing of an amount over the open places of a part of the cycle.
ghost use Rattle.std.specs.Prelude.{◌≡◌, OnOk};
ghost use Rattle.sharing.specs.Laws.{Shared, open_values};
ghost use Rattle.sharing.specs.Sharing.{share_outcome, share_values};
ghost use Rattle.sharing.specs.Weights.{weights};

use crate::part::Part;
use crate::spread::Spread;
use crate::state::State;
use fault::{Fault, Refusal};
use profile::Profile;

// Shares the amount over the open places of a part by the profile's weights. `states` and `values` are those of the
// part's places, lent apart since only values are written; its place j is place `first + j` of the cycle.
pub fn share<P: Profile>(
    profile: &P,
    first: usize,
    states: &[State],
    amount: u32,
    values: &mut [u32],
) -> Result<(), Fault>
    ensures outcome { result ≡ share_outcome (P.Profile.meaning profile.now) first states.now amount values.old }
    ensures written { values.new ≡ share_values (P.Profile.meaning profile.now) first states.now amount values.old }
    ensures exact { OnOk result (Shared amount (weights (P.Profile.meaning profile.now) first states.now) (open_values states.now values.new)) }
{
    let part = Part::new(first, states)
        .filter(|_| states.len() == values.len())
        .ok_or(Refusal::PlacesOrRegionUnfit)?;
    let whole = part.whole_weight(profile)?;
    if whole == 0 && amount != 0 {
        return Err(Refusal::TotalWeightZero.into());
    }
    part.write_shares(profile, Spread { amount, whole }, values);
    Ok(())
}
