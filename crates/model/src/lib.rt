// The words of the fault finder: flags, their sets of values, boxes, rows, facts and states (in specs/), and what a book, a scheduler and
// a chooser are. Everything above is proved against these.
#![tactic(auto)]

pub mod book;
pub mod boxes;
pub mod chooser;
pub mod domain;
pub mod fact;
pub mod laws;
pub mod refusal;
pub mod scheduler;
pub mod strike;
