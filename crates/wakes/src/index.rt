// The type of an index, which carries what holds of every index.
ghost use Rattle.std.specs.Prelude.{◌≡◌, ℕ, ◌≤◌, length};
ghost use Rattle.sets.specs.Members.{listed};
ghost use Rattle.wakes.specs.Naming.{naming};
ghost use Rattle.wakes.specs.Parts.{part_at, Inside};

use crate::part::Part;
use plan::constraint::Constraint;

/// The constraints of a plan by their numbers, and for each cell the rising list of those that name it. These lists lie one
/// after another in `numbers`, which asks for one block of the heap and not for one a cell.
#[derive(Drop)]
pub struct Index {
    pub(crate) constraints: Vec<Constraint>,
    pub(crate) parts: Vec<Part>,
    pub(crate) numbers: Vec<u16>,
    ghost few: { length constraints.items ≤ 512 },
    ghost inside: { Inside parts.items (length numbers.items) },
    ghost part: { (x : ℕ) → part_at parts.items numbers.items x ≡ listed (naming constraints.items x) (length constraints.items) },
}
