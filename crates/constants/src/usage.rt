// Past usage: the pulses counted over places before the cycle.
ghost use Rattle.std.specs.Prelude.{◌*◌, ◌≤◌};

#[derive(Clone, Copy)]
pub struct Usage {
    pub pulses: u32,
    pub places: u16,
    ghost some_places: { 1 ≤ places },
    ghost few_places: { places ≤ 2976 },
    ghost within: { pulses ≤ 65535 * places },
}
