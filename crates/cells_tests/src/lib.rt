// The worked examples of firing: as a theorem on the definitions, and as tests of the code at Span and at the full kind.
#![tactic(auto)]

pub mod examples;
#[cfg(test)]
mod reasons;
#[cfg(test)]
mod tests;
