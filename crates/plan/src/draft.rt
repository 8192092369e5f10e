// What is read so far: a plan that is not yet one.
use crate::constraint::Constraint;
use crate::place::Place;

/// Cells (a helper has no place), premises and constraints in the order of their making, in any number.
#[derive(Drop)]
pub struct Draft {
    pub cells: Vec<Option<Place>>,
    pub premises: Vec<Place>,
    pub constraints: Vec<Constraint>,
}
