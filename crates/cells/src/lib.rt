// Cells that are told things, and the firing of constraints over a lent slice of them.
#![tactic(auto)]

pub mod cell;
pub mod changed;
pub mod fire;
mod reads;
pub mod reasons;
pub mod tell;
