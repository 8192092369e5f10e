// Indexes: that of a plan, and what an index holds.
ghost use Rattle.std.specs.Prelude.{◌≡◌, length, IfOk};
ghost use Rattle.std.specs.List.{slice_get};
ghost use Rattle.sets.specs.Members.{listed};
ghost use Rattle.plan.specs.Items.{planned};
ghost use Rattle.wakes.specs.Naming.{naming};
ghost use Rattle.wakes.specs.Indexes.{constraints_in, cells_in};

use crate::index::Index;
use crate::parts::parts_of;
use plan::constraint::Constraint;
use plan::plan::Plan;
use std::alloc::{AllocError, Global};

impl Index {
    /// The index of a plan.
    pub fn new(heap: Global, plan: &Plan) -> Result<Index, AllocError>
        ensures constraints { IfOk result (λ x. constraints_in x ≡ (planned plan.now).constraints) }
        ensures cells { IfOk result (λ x. cells_in x ≡ length (planned plan.now).cells) }
    {
        let constraints = Vec::from_slice(heap, plan.constraints())?;
        let (parts, numbers) = parts_of(heap, plan.constraints(), plan.cell_count())?;
        Ok(Index {
            constraints,
            parts,
            numbers,
        })
    }

    /// How many cells there are.
    pub fn cell_count(&self) -> usize
        ensures { result ≡ cells_in self.now }
    {
        self.parts.len()
    }

    /// A constraint by its number, absent where there is none.
    pub fn constraint(&self, i: usize) -> Option<Constraint>
        ensures { result ≡ slice_get (constraints_in self.now) i }
    {
        self.constraints.get(i).copied()
    }

    /// The constraints that name a cell, in rising order; no constraint names a cell that there is not.
    pub fn part(&self, cell: usize) -> &[u16]
        ensures { result.now ≡ listed (naming (constraints_in self.now) cell) (length (constraints_in self.now)) }
    {
        let Some(part) = self.parts.get(cell) else {
            return &[];
        };
        let start = usize::from(part.start);
        &self.numbers[start..start + usize::from(part.len)]
    }
}
