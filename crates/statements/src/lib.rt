// Statements: what a sheet or the network can say of one number.
#![tactic(auto)]

mod aligned;
mod between;
pub mod numbers;
pub mod residue;
pub mod statement;
