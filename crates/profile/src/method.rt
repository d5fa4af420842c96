// The methods by which a weight is found. Each has its code, which is kept beside an estimate.
ghost use Rattle.std.specs.Prelude.{◌≡◌};
ghost use Rattle.profile.specs.Codes.{method_code};

#[derive(Clone, Copy)]
pub enum Method {
    Flat = 1,
    StraightLine = 2,
    ReferenceDays = 3,
}

impl Method {
    // A method and no `From`: `u8::from(method)` is no plainer, and drops the word that users know.
    pub fn code(self) -> u8
        ensures { result ≡ method_code self }
    {
        self as u8
    }
}
