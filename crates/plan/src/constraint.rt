// The four forms of a constraint, over cells by their numbers.
use statements::statement::Statement;

/// What a constraint asks of the numbers of its cells.
#[derive(Clone, Copy, Debug, PartialEq, Eq)]
pub enum Form {
    /// The statement allows the first cell's number.
    State(usize, Statement),
    /// The first two add up to the third.
    Sum(usize, usize, usize),
    /// The first and the distance together are at most the second.
    Gap(usize, i64, usize),
    /// The first and its distance are at most the second, or the second and its own at most the first.
    Apart(usize, u32, usize, u32),
}

/// A form and the premise that owns it: in force when that is, or always where there is none.
#[derive(Clone, Copy, Debug, PartialEq, Eq)]
pub struct Constraint {
    pub owner: Option<usize>,
    pub form: Form,
}
