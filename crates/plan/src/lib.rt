// A plan: cells, premises and constraints, with the places of their names, within their limits.
#![tactic(auto)]

pub mod constraint;
pub mod draft;
pub mod named;
pub mod names;
pub mod place;
pub mod plan;
pub mod plans;
pub mod texts;
