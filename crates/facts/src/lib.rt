// Kinds of fact: what is known of one number, whatever form the knowledge takes.
#![tactic(auto)]

pub mod both;
pub mod exact;
pub mod kind;
pub mod tidy;
