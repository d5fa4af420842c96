// What the book has found out about a place.
ghost use Rattle.std.specs.Prelude.{◌≡◌};
ghost use Rattle.sharing.specs.Weights.{open_status};

#[derive(Clone, Copy)]
pub enum Status {
    Raw,
    Measured,
    Verified,
    Open,
    Estimated,
}

impl Status {
    // Whether the place still waits for a value: only an estimate or a verification can give it one.
    pub fn is_open(self) -> bool
        ensures { result ≡ open_status self }
    {
        matches!(self, Status::Open)
    }
}

// What a book keeps of a place: three bytes, and nothing on the heap. So the marks are bits. The code is the number that
// the profile itself gave, and stands beside the status, as in the definition of a book, where every place has one.
#[derive(Clone, Copy)]
pub struct State {
    pub status: Status,
    // one bit for each rule that questions the place
    pub marks: u8,
    // the code of the method behind an estimate, 0 without one
    pub code: u8,
}
