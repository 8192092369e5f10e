// For each cell the numbers of the constraints that name it, in rising order, one part after another in one list.
ghost use Rattle.std.specs.Prelude.{◌≡◌, ◌+◌, ◌≤◌, ◌++◌, length, map, IfOk, OnOk};
ghost use Rattle.std.specs.List.{range_with_len};
ghost use Rattle.sets.specs.Members.{listed};
ghost use Rattle.wakes.specs.Naming.{naming};
ghost use Rattle.wakes.specs.Parts.{in_part, Inside};

use crate::concern::names;
use crate::part::Part;
use plan::constraint::Constraint;
use std::alloc::{AllocError, Global};

/// The parts of the cells below `cells`, in the order of the cells, and the numbers among which they lie.
pub fn parts_of(
    heap: Global,
    constraints: &[Constraint],
    cells: usize,
) -> Result<(Vec<Part>, Vec<u16>), AllocError>
    requires { length constraints.now ≤ 512 }
    ensures inside { IfOk result (λ r. Inside r.0.items (length r.1.items)) }
    ensures parts { IfOk result (λ r. map (in_part r.1.items) r.0.items ≡ map (λ x. listed (naming constraints.now x) (length constraints.now)) (range_with_len 0 cells)) }
{
    let mut parts = Vec::with_capacity(heap, cells)?;
    let mut numbers = Vec::new(heap);
    for cell in 0..cells {
        parts.push_reserved(add_part(constraints, cell, &mut numbers)?);
    }
    Ok((parts, numbers))
}

// Adds the constraints that name the cell, and tells where they lie. The parts before hold no more than 3 · 512 numbers.
fn add_part(
    constraints: &[Constraint],
    cell: usize,
    numbers: &mut Vec<u16>,
) -> Result<Part, AllocError>
    requires few { length constraints.now ≤ 512 }
    requires room { length numbers.old.items ≤ 1536 }
    ensures added { OnOk result (numbers.new.items ≡ numbers.old.items ++ listed (naming constraints.now cell) (length constraints.now)) }
    ensures lies { IfOk result (λ p. (p.start ≡ length numbers.old.items) × (p.start + p.len ≡ length numbers.new.items)) }
{
    let start = numbers.len();
    for (number, k) in constraints.iter().enumerate() {
        if names(k.form, cell) {
            numbers.push(number as u16)?;
        }
    }
    let len = numbers.len() - start;
    Ok(Part {
        start: start as u16,
        len: len as u16,
    })
}
