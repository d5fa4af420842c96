// What every profile answers.
ghost use Rattle.std.specs.Prelude.{◌≡◌, ℕ, Option};

pub trait Profile {
    // The weight of a place with the code of the method that gave it, or nothing where it has no weight.
    ghost meaning: { Self → ℕ → Option (ℕ × ℕ) };

    // An optional pair, as the meaning is. The code is a number and no `Method`, since a profile of another crate has a
    // code of its own.
    fn weight(&self, place: usize) -> Option<(u16, u8)>
        ensures { result ≡ meaning self.now place };
}
