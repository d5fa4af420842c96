// Two profiles as one: the second answers where the first has no weight.
ghost use Rattle.std.specs.Prelude.{◌≡◌, ◌||◌, is_some};
ghost use Rattle.profile.specs.Meanings.{pair_weight};

use crate::weighing::Profile;

#[derive(Drop)]
pub struct Pair<P, Q> {
    pub first: P,
    pub second: Q,
}

impl<P: Profile, Q: Profile> Profile for Pair<P, Q> {
    ghost meaning = { λ s place. pair_weight (P.Profile.meaning s.first place) (Q.Profile.meaning s.second place) };

    // It has no weight only where neither part has one.
    fn weight(&self, place: usize) -> Option<(u16, u8)>
        ensures answer { result ≡ pair_weight (P.Profile.meaning self.now.first place) (Q.Profile.meaning self.now.second place) }
        ensures some { is_some result ≡ (is_some (P.Profile.meaning self.now.first place) || is_some (Q.Profile.meaning self.now.second place)) }
    {
        self.first
            .weight(place)
            .or_else(|| self.second.weight(place))
    }
}
