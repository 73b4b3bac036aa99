// To strike a row is to take from the sets of its flags every value that has no support from it. What that did: it removed no value, it
// removed some, or a flag of the row has no value left.
#[derive(Clone, Copy, PartialEq, Eq, Debug)]
pub enum Strike {
    Unchanged,
    Changed,
    Dead,
}
