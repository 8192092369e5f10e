// The type of a plan, which carries what holds of every plan.
ghost use Rattle.std.specs.Prelude.{◌≡◌, ◌≤◌, true, vec_len};
ghost use Rattle.plan.specs.Known.{all_known};

use crate::draft::Draft;

/// At most 256 cells, 512 constraints and 32 premises; every constraint names only the plan's own cells and premises,
/// with its numbers in their ranges.
#[derive(Drop)]
pub struct Plan {
    pub(crate) draft: Draft,
    ghost few_cells: { vec_len draft.cells ≤ 256 },
    ghost few_premises: { vec_len draft.premises ≤ 32 },
    ghost few_constraints: { vec_len draft.constraints ≤ 512 },
    ghost known: { all_known (vec_len draft.cells) (vec_len draft.premises) draft.constraints.items ≡ true },
}
