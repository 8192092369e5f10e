// Which constraints a cell, a premise or the premises in force concern, and how these are set waiting.
#![tactic(auto)]

pub mod concern;
pub mod index;
pub mod indexes;
mod part;
mod parts;
#[cfg(test)]
mod tests;
pub mod wake;
