// The agenda that takes the constraint which came last.
use super::line::Line;

/// A stack: a constraint is put at the end and taken from the end.
pub type Stack = Line<true>;
