// Lists of items, kept one after another in one store.
#![tactic(auto)]

mod store;

pub use store::Lists;
