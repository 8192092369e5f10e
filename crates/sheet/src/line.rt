// A whole line: nothing, a declaration, or a constraint.
ghost use Rattle.std.specs.Prelude.{◌≡◌, ◌≤◌};
ghost use Rattle.meaning.specs.Checks.{new_fault};
ghost use Rattle.sheet.specs.Progress.{progress, further};
ghost use Rattle.sheet.specs.Next.{tree_name};
ghost use Rattle.sheet.specs.Forms.{Near, NewTells, LineTells};

use crate::next::{Name, after, end, next_name};
use crate::reading::{Reading, Stop};
use faults::Problem;
use plan::place::Place;
use words::{Keyword, Placed, Symbol, Token};

/// Where a line begins: its text, and how many bytes of the text come before it.
#[derive(Clone, Copy)]
pub struct Start {
    // The number that the places and the fault of the line will hold.
    pub text: usize,
    pub offset: usize,
}

impl<'a> Reading<'a> {
    // Notes a name that was declared before.
    fn note_new(&mut self, new: Name<'_>)
        ensures { let p = progress self.old in progress self.new ≡ further p (new_fault p.texts p.items (tree_name new.entry)) }
    {
        if self.cell(new.bytes).is_some() || self.premise(new.bytes).is_some() {
            self.note(Problem::Twice, new.column);
        }
    }

    // The place of the name that a line declares.
    fn new_place(&mut self, start: Start, words: &[Placed<'a>]) -> Result<Place, Stop>
        requires near { Near words.now }
        requires inside { start.offset ≤ 32768 }
        ensures { NewTells result start (progress self.old) words.now (progress self.new) }
    {
        let (new, rest) = next_name(words)?;
        end(rest)?;
        self.note_new(new);
        Ok(Place {
            text: start.text,
            start: start.offset + new.column.saturating_sub(1),
            len: new.bytes.len(),
        })
    }

    // A line by its words.
    pub(crate) fn line(&mut self, start: Start, words: &[Placed<'a>]) -> Result<(), Stop>
        requires near { Near words.now }
        requires inside { start.offset ≤ 32768 }
        ensures { LineTells result start (progress self.old) words.now (progress self.new) }
    {
        let [first, rest @ ..] = words else {
            return Ok(());
        };
        let column = first.column;
        match first.token {
            Token::Reserved(Keyword::Cell) => {
                let place = self.new_place(start, rest)?;
                self.draft.cells.push(Some(place))?;
                Ok(())
            }
            Token::Reserved(Keyword::Premise) => {
                let place = self.new_place(start, rest)?;
                self.draft.premises.push(place)?;
                Ok(())
            }
            Token::Name(bytes) => match after(rest, Symbol::Colon) {
                Some(rest) => {
                    let owner = self.premise_named(Name { column, bytes });
                    self.body(Some(owner), rest)
                }
                None => self.body(None, words),
            },
            _ => self.body(None, words),
        }
    }
}
