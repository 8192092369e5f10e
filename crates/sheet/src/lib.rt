// Two sheets, read into a plan or to the first fault.
#![tactic(auto)]

mod expression;
mod forms;
mod line;
mod next;
pub mod reading;
pub mod sheets;

pub use expression::DEEPEST;
pub use forms::FINEST;
