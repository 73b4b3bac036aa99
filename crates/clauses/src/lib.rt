// The clauses: a book of lists of literals, each true where at least one of its literals is.
#![tactic(auto)]

mod clause;
pub mod clauses;
pub mod laws;
pub mod literal;
mod refusing;
mod storing;
