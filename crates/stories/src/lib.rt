// Stories: small books of rules over named flags, told facts one after another. The examples, the books that they mean, what telling a fact
// comes to, and what is said of all this in sentences.
#![tactic(auto)]

pub mod books;
pub mod examples;
pub mod flags;
pub mod saying;
pub mod story;
pub mod telling;
