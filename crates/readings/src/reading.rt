// One reading of the register: what it showed at a boundary, which stands before the place of that number.
#[derive(Clone, Copy, Default)]
pub struct Reading {
    pub boundary: u16,
    pub register: u32,
}
