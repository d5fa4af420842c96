// A part of the cycle: what its open places weigh, and the shares that are written to them.
ghost use Rattle.std.specs.Prelude.{◌≡◌, ◌+◌, ◌≤◌, ◌↔◌, length, sum, IsSome, IfSome};
ghost use Rattle.constants.specs.Limits.{longest_cycle};
ghost use Rattle.sharing.specs.Sharing.{shared_out};
ghost use Rattle.sharing.specs.Weighing.{place_weight, weighing};
ghost use Rattle.sharing.specs.Weights.{is_open, weights};

use crate::spread::Spread;
use crate::state::State;
use constants::LONGEST_CYCLE;
use fault::{Fault, Refusal};
use profile::Profile;

// The places from `first` on, one for each state.
#[derive(Clone, Copy)]
pub(crate) struct Part<'a> {
    first: usize,
    states: &'a [State],
    ghost within: { first + length states.now ≤ longest_cycle },
}

impl<'a> Part<'a> {
    // The part, unless it passes the end of the longest cycle.
    pub(crate) fn new(first: usize, states: &'a [State]) -> Option<Part<'a>>
        ensures within { IsSome result ↔ (first + length states.now ≤ longest_cycle) }
        ensures places { IfSome result (λ part. (part.first ≡ first) × (part.states.now ≡ states.now)) }
    {
        if first.saturating_add(states.len()) > LONGEST_CYCLE {
            return None;
        }
        Some(Part { first, states })
    }

    // What the places weigh together. The longest cycle has few enough of them for 32 bits.
    pub(crate) fn whole_weight<P: Profile>(&self, profile: &P) -> Result<u32, Fault>
        ensures { result ≡ weighing (P.Profile.meaning profile.now) self.now.first self.now.states.now }
    {
        let mut whole = 0;
        for (place, state) in (self.first..).zip(self.states) {
            let weight = weight_at(profile, place, *state).ok_or(Fault::at(
                Refusal::PlaceWithoutWeight,
                place,
            ))?;
            whole += u32::from(weight);
        }
        Ok(whole)
    }

    // Gives each open place what the running share grows by at it.
    pub(crate) fn write_shares<P: Profile>(&self, profile: &P, spread: Spread, values: &mut [u32])
        requires level { length self.now.states.now ≡ length values.old }
        requires whole { spread.whole
            ≡ sum (weights (P.Profile.meaning profile.now) self.now.first self.now.states.now) }
        ensures { values.new
            ≡ shared_out (P.Profile.meaning profile.now) self.now.first self.now.states.now spread.amount values.old }
    {
        let mut weight = 0;
        let mut shared = 0;
        // by index: a proof would know nothing of values that were written through `zip`
        for (i, value) in values.iter_mut().enumerate() {
            let state = self.states[i];
            weight += u32::from(weight_at(profile, self.first + i, state).unwrap_or(0));
            let due = spread.running_share(weight);
            if state.status.is_open() {
                *value = due - shared;
            }
            shared = due;
        }
    }
}

// What a place weighs: 0 unless it is open, and `None` where it is open and the profile has no weight for it.
fn weight_at<P: Profile>(profile: &P, place: usize, state: State) -> Option<u16>
    ensures { result ≡ place_weight (is_open state) (P.Profile.meaning profile.now place) }
{
    if !state.status.is_open() {
        return Some(0);
    }
    profile.weight(place).map(|(weight, _)| weight)
}
