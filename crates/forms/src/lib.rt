// The tells that each form of a constraint makes.
#![tactic(auto)]

pub mod tell;
pub mod tells;
