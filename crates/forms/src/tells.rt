// The tells that a form makes, one after the other.
ghost use Rattle.std.specs.Prelude.{◌≡◌, ℕ, true, List, drop};
ghost use Rattle.std.specs.List.{slice_get};
ghost use Rattle.std.specs.Iterator.{YieldsFirst, item_count};
ghost use Rattle.plan.specs.Forms.{named};
ghost use Rattle.plan.specs.Known.{ranged};
ghost use Rattle.forms.specs.Tells.{tells, Near};
ghost use Rattle.forms.specs.declared.tell.Tell.{Tell};
ghost use Rattle.forms.specs.declared.tell.Condition.TheVariants.{Always};

use crate::tell::{Condition, Saying, Tell};
use plan::constraint::Form;
use std::marker::Model;

// A tell that is made whatever the cells are.
fn always(target: usize, saying: Saying) -> Tell
    ensures { result ≡ record { target = target; condition = Always; saying = saying } }
{
    Tell {
        target,
        condition: Condition::Always,
        saying,
    }
}

// By a match on the place, and no array: an array makes each tell of the form to answer one, and firing takes a third more
// instructions by it.
/// The i-th tell that the form makes, from 0; absent past the last. Its distances are numbers of U where the form's are.
pub fn tell_at(form: Form, i: usize) -> Option<Tell>
    ensures tell { result ≡ slice_get (tells form) i }
    ensures near { ranged form ≡ true → Near result }
{
    match form {
        Form::State(c, s) => match i {
            0 => Some(always(c, Saying::Stated(s))),
            1 => Some(always(c, Saying::Cut(c, s))),
            _ => None,
        },
        Form::Sum(a, b, c) => match i {
            0 => Some(always(c, Saying::Plus(a, b))),
            1 => Some(always(a, Saying::Minus(c, b))),
            2 => Some(always(b, Saying::Minus(c, a))),
            _ => None,
        },
        Form::Gap(a, d, b) => match i {
            0 => Some(always(b, Saying::From(a, d))),
            1 => Some(always(a, Saying::UpTo(b, d))),
            _ => None,
        },
        Form::Apart(a, d, b, e) => {
            let d = i64::from(d);
            let e = i64::from(e);
            match i {
                0 => Some(Tell {
                    target: a,
                    condition: Condition::Above(a, d, b),
                    saying: Saying::From(b, e),
                }),
                1 => Some(Tell {
                    target: b,
                    condition: Condition::Above(a, d, b),
                    saying: Saying::UpTo(a, e),
                }),
                2 => Some(Tell {
                    target: b,
                    condition: Condition::Above(b, e, a),
                    saying: Saying::From(a, d),
                }),
                3 => Some(Tell {
                    target: a,
                    condition: Condition::Above(b, e, a),
                    saying: Saying::UpTo(b, d),
                }),
                _ => None,
            }
        }
    }
}

// Beside NamedCells of plan: one iterator for both would need a trait for what a form lists, with a ghost list, and a
// marker in its struct.
/// The tells that a form makes, one after the other; seen as the list of those that are still to come.
#[derive(Drop)]
pub struct FormTells {
    form: Form,
    next: usize,
}

impl Model for FormTells {
    ghost Value = { List Tell };

    ghost view = { λ w. drop w.next (tells w.form) };
}

/// The tells that the form makes, in their order.
pub fn tells(form: Form) -> FormTells
    ensures { result ≡ tells form }
{
    FormTells { form, next: 0 }
}

impl Iterator for FormTells {
    type Item = Tell;

    ghost next_gives = { YieldsFirst (λ rest. rest) };

    ghost remaining = { item_count (λ rest. rest) };

    fn next(&mut self) -> Option<Tell> {
        let tell = tell_at(self.form, self.next)?;
        self.next += 1;
        Some(tell)
    }
}
