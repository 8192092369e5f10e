// Sets of small numbers: below 32 as the bits of one word, below 512 as sixteen of those.
#![tactic(auto)]

pub mod small;
#[cfg(test)]
mod tests;
pub mod wide;
