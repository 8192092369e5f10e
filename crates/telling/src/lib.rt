// What firing promises in every lawful kind: a function for each theorem.
#![tactic(auto)]

pub mod promises;
