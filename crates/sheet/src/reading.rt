// What is being read: the texts, the draft so far, and what was found wrong in the line.
ghost use Rattle.std.specs.Prelude.{◌≡◌, length, Some, None};
ghost use Rattle.meaning.specs.Making.{or_zero, cell_named, premise_named, makes_number, makes_sum, adds};
ghost use Rattle.meaning.specs.Checks.{at, wanted};
ghost use Rattle.plan.specs.Names.{cell_of, premise_of};
ghost use Rattle.sheet.specs.declared.reading.Stop.TheVariants.{Memory};
ghost use Rattle.sheet.specs.Progress.{progress, further, Added, Pushed};
ghost use Rattle.sheet.specs.Growing.{after_name};
ghost use Rattle.sheet.specs.Next.{tree_name};

use crate::next::Name;
use faults::{Found, Problem};
use plan::constraint::{Constraint, Form};
use plan::draft::Draft;
use plan::names::find;
use plan::texts::Texts;
use statements::statement::Statement;
use std::alloc::AllocFailed;

/// The texts, the draft, and the first problem with the names and numbers of the line.
#[derive(Drop)]
pub struct Reading<'a> {
    pub texts: Texts<'a>,
    pub draft: Draft,
    pub found: Option<Found>,
}

/// Why a line is not read: want of memory, a word that no line can have there, a parenthesis too deep, or too few words.
#[derive(Clone, Copy, Debug, PartialEq, Eq)]
pub enum Stop {
    Memory,
    Word(usize),
    Deep(usize),
    Short,
}

impl<T: Drop> From<AllocFailed<T>> for Stop {
    ghost from_gives = { λ _ e. e ≡ Memory };

    fn from(_e: AllocFailed<T>) -> Stop {
        Stop::Memory
    }
}

impl<'a> Reading<'a> {
    // Notes a problem, unless one further to the left was noted.
    pub(crate) fn note(&mut self, problem: Problem, column: usize)
        ensures { progress self.new ≡ further (progress self.old) (at problem column) }
    {
        if self.found.is_none() {
            self.found = Some(Found { problem, column });
        }
    }

    // The cell of a name.
    pub(crate) fn cell(&self, name: &[u8]) -> Option<usize>
        ensures { let p = progress self.now in result ≡ cell_of p.texts p.items.cells name.now }
    {
        find(self.draft.cells.as_slice(), self.texts, name)
    }

    // The premise of a name.
    pub(crate) fn premise(&self, name: &[u8]) -> Option<usize>
        ensures { let p = progress self.now in result ≡ premise_of p.texts p.items.premises name.now }
    {
        find(self.draft.premises.as_slice(), self.texts, name)
    }

    // What was found under a name at a column; a name that is not known is noted.
    fn known(&mut self, found: Option<usize>, column: usize) -> usize
        ensures number { result ≡ or_zero found }
        ensures after { progress self.new ≡ further (progress self.old) (wanted found column) }
    {
        match found {
            Some(number) => number,
            None => {
                self.note(Problem::Unknown, column);
                // It counts for nothing: a line with a note makes no plan.
                0
            }
        }
    }

    // The cell that a name means.
    pub(crate) fn cell_named(&mut self, name: Name<'_>) -> usize
        ensures cell { let p = progress self.old in result ≡ cell_named p.texts p.items name.entry.bytes.now }
        ensures after { progress self.new ≡ after_name (tree_name name.entry) (progress self.old) }
    {
        let found = self.cell(name.bytes);
        self.known(found, name.column)
    }

    // The premise that a name means.
    pub(crate) fn premise_named(&mut self, name: Name<'_>) -> usize
        ensures premise { let p = progress self.old in result ≡ premise_named p.texts p.items name.entry.bytes.now }
        ensures after { let p = progress self.old in progress self.new ≡ further p (wanted (premise_of p.texts p.items.premises name.entry.bytes.now) name.entry.column) }
    {
        let found = self.premise(name.bytes);
        self.known(found, name.column)
    }

    // One constraint more.
    pub(crate) fn push(&mut self, owner: Option<usize>, form: Form) -> Result<(), Stop>
        ensures { Pushed result (adds owner form (progress self.old).items) (progress self.old) (progress self.new) }
    {
        self.draft.constraints.push(Constraint { owner, form })?;
        Ok(())
    }

    // A helper cell that holds a number. Nothing owns a helper.
    pub(crate) fn add_number(&mut self, n: u32) -> Result<usize, Stop>
        ensures { Added result (makes_number None n (progress self.old).items) (progress self.old) (progress self.new) }
    {
        let cell = self.draft.cells.len();
        self.draft.cells.push(None)?;
        let n = i64::from(n);
        self.push(None, Form::State(cell, Statement::Between(n, n)))?;
        Ok(cell)
    }

    // A helper cell that holds the sum of two cells. One function for both helpers would take the constraint as a
    // closure, and be no shorter.
    pub(crate) fn add_sum(&mut self, a: usize, b: usize) -> Result<usize, Stop>
        ensures { Added result (makes_sum None a b (progress self.old).items) (progress self.old) (progress self.new) }
    {
        let cell = self.draft.cells.len();
        self.draft.cells.push(None)?;
        self.push(None, Form::Sum(a, b, cell))?;
        Ok(cell)
    }
}
