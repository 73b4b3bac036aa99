use crate::flags::Flags;
use clauses::literal::Literal;
use model::fact::Fact;
use table::relation::Relation;

// Rules over named flags, and the facts that a caller tells.
#[derive(Clone, Copy)]
pub struct Story<'a> {
    pub title: &'a str,
    pub flags: Flags<'a>,
    pub clauses: &'a [&'a [Literal<usize>]],
    pub rules: &'a [Relation<usize>],
    // told one after another
    pub facts: &'a [Fact],
}
