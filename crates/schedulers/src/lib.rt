// The schedulers: which of the waiting rows is looked at next.
#![tactic(auto)]

pub mod lanes;
pub mod laws;
mod marks;
pub mod queue;
pub mod ring;
