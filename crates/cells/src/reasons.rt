// Why a cell holds what it does.
ghost use Rattle.std.specs.Prelude.{◌≡◌, true};
ghost use Rattle.plan.specs.Known.{owner_known};
ghost use Rattle.plan.specs.Placements.{owned_by};
ghost use Rattle.telling.specs.Reasons.{no_reasons, together, premises_only};
ghost use Rattle.cells.specs.Meaning.{tags_of};

use sets::small::Set32;

/// A set of premises and a set of guesses, each below 32. Reasons with the same members are equal values.
#[derive(Clone, Copy, PartialEq, Eq, Debug)]
pub struct Reasons {
    pub premises: Set32,
    pub guesses: Set32,
}

impl Reasons {
    /// No premise and no guess.
    pub fn none() -> Reasons
        ensures { tags_of result ≡ no_reasons }
    {
        Reasons {
            premises: Set32::none(),
            guesses: Set32::none(),
        }
    }

    /// What either has.
    pub fn union(self, other: Reasons) -> Reasons
        ensures { tags_of result ≡ together (tags_of self) (tags_of other) }
    {
        Reasons {
            premises: self.premises.union(other.premises),
            guesses: self.guesses.union(other.guesses),
        }
    }

    // The premises that own a constraint.
    pub(crate) fn owned(owner: Option<usize>) -> Reasons
        requires { owner_known 32 owner ≡ true }
        ensures { tags_of result ≡ premises_only (owned_by owner) }
    {
        match owner {
            None => Reasons::none(),
            Some(p) => Reasons {
                premises: Set32::none().insert(p as u32),
                guesses: Set32::none(),
            },
        }
    }
}
