// The agenda that takes the constraint which has waited longest.
use super::line::Line;

/// A queue: a constraint is put at the end and taken from the front.
pub type Queue = Line<false>;
