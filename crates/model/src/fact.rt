// A fact: a flag has a value. Facts are what a caller tells.
#[derive(Clone, Copy, PartialEq, Eq, Debug)]
pub struct Fact {
    pub flag: u8,
    pub value: bool,
}
