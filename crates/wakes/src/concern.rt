// What concerns a constraint: the cells that it names, its owner, and the premises in force.
ghost use Rattle.std.specs.Prelude.{◌≡◌, nat_eq};
ghost use Rattle.sets.specs.Small.{holds};
ghost use Rattle.plan.specs.Forms.{named};
ghost use Rattle.plan.specs.Placements.{owned_by};
ghost use Rattle.telling.specs.Tables.{any};
ghost use Rattle.calls.specs.Networks.{in_force};

use plan::constraint::{Constraint, Form};
use sets::small::Set32;

/// Whether a form names a cell.
pub fn names(form: Form, cell: usize) -> bool
    ensures { result ≡ any (λ x. nat_eq x cell) (named form) }
{
    // Each form in an arm of its own: an index asks this of each constraint for each cell, and a walk over `named(form)` took
    // it up to twice as long.
    match form {
        Form::State(a, _) => a == cell,
        Form::Sum(a, b, c) => (a == cell) | ((b == cell) | (c == cell)),
        Form::Gap(a, _, b) => (a == cell) | (b == cell),
        Form::Apart(a, _, b, _) => (a == cell) | (b == cell),
    }
}

/// Whether a premise owns a constraint.
pub fn is_owned_by(k: &Constraint, premise: usize) -> bool
    ensures { result ≡ owned_by k.now.owner premise }
{
    k.owner == Some(premise)
}

/// Whether a constraint is in force under the premises in force; an owner from 32 on is no premise, and asks nothing.
pub fn is_in_force(k: &Constraint, force: Set32) -> bool
    ensures { result ≡ in_force (holds force) k.now }
{
    k.owner.is_none_or(|p| p >= 32 || force.has(p as u32))
}
