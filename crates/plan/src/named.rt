// The cells that a form names, one after the other.
ghost use Rattle.std.specs.Prelude.{◌≡◌, ℕ, List, drop};
ghost use Rattle.std.specs.List.{slice_get};
ghost use Rattle.std.specs.Iterator.{YieldsFirst, item_count};
ghost use Rattle.plan.specs.Forms.{named};

use crate::constraint::Form;
use std::marker::Model;

/// The i-th cell that the form names, from 0; absent past the last.
pub fn named_at(form: Form, i: usize) -> Option<usize>
    ensures { result ≡ slice_get (named form) i }
{
    match form {
        Form::State(c, _) => [c].get(i).copied(),
        Form::Sum(a, b, c) => [a, b, c].get(i).copied(),
        Form::Gap(a, _, b) | Form::Apart(a, _, b, _) => [a, b].get(i).copied(),
    }
}

/// The cells that a form names, one after the other; seen as the list of those that are still to come.
#[derive(Drop)]
pub struct NamedCells {
    form: Form,
    next: usize,
}

impl Model for NamedCells {
    ghost Value = { List ℕ };

    ghost view = { λ w. drop w.next (named w.form) };
}

/// The cells that the form names, in their order.
pub fn named(form: Form) -> NamedCells
    ensures { result ≡ named form }
{
    NamedCells { form, next: 0 }
}

impl Iterator for NamedCells {
    type Item = usize;

    ghost next_gives = { YieldsFirst (λ rest. rest) };

    ghost remaining = { item_count (λ rest. rest) };

    fn next(&mut self) -> Option<usize> {
        let cell = named_at(self.form, self.next)?;
        self.next += 1;
        Some(cell)
    }
}
