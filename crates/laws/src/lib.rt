// The promises over every history of calls, for every lawful kind of fact and every lawful agenda.
#![tactic(auto)]

pub mod excluded;
pub mod plans;
pub mod promises;
