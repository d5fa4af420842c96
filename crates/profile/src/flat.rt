// The same weight everywhere.
ghost use Rattle.profile.specs.Meanings.{flat_weight};

use crate::method::Method;
use crate::weighing::Profile;

#[derive(Clone, Copy)]
pub struct Flat;

impl Profile for Flat {
    ghost meaning = { λ _. flat_weight };

    fn weight(&self, _place: usize) -> Option<(u16, u8)> {
        Some((1, Method::Flat.code()))
    }
}
