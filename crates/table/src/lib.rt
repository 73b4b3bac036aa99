// The table: a book of at most 512 rows of four kinds, each over two or three flags.
#![tactic(auto)]

pub mod decide;
pub mod relation;
pub mod rules;
pub mod table;
