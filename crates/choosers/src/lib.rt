// The choosers: which open flag a listing tries next, and with which value first.
#![tactic(auto)]

mod flags;
pub mod laws;
pub mod ranked;
pub mod rising;
