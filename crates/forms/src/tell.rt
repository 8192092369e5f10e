// A tell: which cell is told, when, and what. What it says depends on the lowest and the highest of the cells that it reads.
use statements::statement::Statement;

/// What is said of the target.
#[derive(Clone, Copy)]
pub enum Saying {
    /// What the statement says. No cell is read.
    Stated(Statement),
    /// The least number of the statement from the cell's lowest up, to the greatest from its highest down.
    Cut(usize, Statement),
    /// The sum of the lowest to the sum of the highest of two cells.
    Plus(usize, usize),
    /// The first cell's lowest less the second's highest, to the first's highest less the second's lowest.
    Minus(usize, usize),
    /// The cell's lowest and the distance, to M.
    From(usize, i64),
    /// -M to the cell's highest less the distance.
    UpTo(usize, i64),
}

/// When a tell is made. No Option of the last: that a tell is always made is a condition too, which None would not say.
#[derive(Clone, Copy)]
pub enum Condition {
    Always,
    /// The first cell's lowest and the distance are above the second cell's highest.
    Above(usize, i64, usize),
}

/// One tell of a form.
#[derive(Clone, Copy)]
pub struct Tell {
    pub target: usize,
    pub condition: Condition,
    pub saying: Saying,
}
