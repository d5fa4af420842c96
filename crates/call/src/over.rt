// A call that is over: what it was, for the record. A struct of the two numbers, shared with `Identified`, would be no
// plainer: each reader of them would go through one name more.
#[derive(Drop)]
pub struct Over {
    pub number: u32,
    pub drift: i64,
}
