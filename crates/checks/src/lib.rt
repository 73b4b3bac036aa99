// Tests of books, schedulers, choosers, the index and narrowing together, on examples. They are in a crate of their own since a crate with
// tests is proved twice.
#![tactic(auto)]

#[cfg(test)]
mod tests;
