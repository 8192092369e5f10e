// Constraints: the forms of fixed shape, and two expressions joined by `<=`.
ghost use Rattle.grammar.specs.Parse.{after_in, after_align, after_apart};
ghost use Rattle.sheet.specs.Progress.{progress};
ghost use Rattle.sheet.specs.Next.{tree_name};
ghost use Rattle.sheet.specs.Forms.{FormTells, BoundTells, BodyTells};

use crate::next::{Name, end, expect, next_name, next_number, next_to};
use crate::reading::{Reading, Stop};
use faults::Problem;
use plan::constraint::Form;
use statements::residue::Residue;
use statements::statement::Statement;
use words::{Keyword, Placed, Symbol, Token};

/// The largest power of two that an alignment may name.
pub const FINEST: u32 = 24;

impl<'a> Reading<'a> {
    // `N in LO to HI`, after `in`. Owner, name and words come together to three forms, and part at once: a struct of them
    // would be made only to be taken apart.
    fn within(
        &mut self,
        owner: Option<usize>,
        named: Name<'a>,
        words: &[Placed<'a>],
    ) -> Result<(), Stop>
        ensures { FormTells after_in result owner (tree_name named.entry) (progress self.old) words.now (progress self.new) }
    {
        let cell = self.cell_named(named);
        let (lo, rest) = next_number(words)?;
        let rest = next_to(rest)?;
        let (hi, rest) = next_number(rest)?;
        end(rest)?;
        let stated = Statement::Between(i64::from(lo.value), i64::from(hi.value));
        self.push(owner, Form::State(cell, stated))
    }

    // `N align K R`, after `align`.
    fn aligned(
        &mut self,
        owner: Option<usize>,
        named: Name<'a>,
        words: &[Placed<'a>],
    ) -> Result<(), Stop>
        ensures { FormTells after_align result owner (tree_name named.entry) (progress self.old) words.now (progress self.new) }
    {
        let cell = self.cell_named(named);
        let (k, rest) = next_number(words)?;
        let (r, rest) = next_number(rest)?;
        end(rest)?;
        if k.value > FINEST {
            self.note(Problem::Range, k.column);
            return Ok(());
        }
        match Residue::new(k.value, r.value) {
            Some(residue) => self.push(owner, Form::State(cell, Statement::Aligned(residue))),
            None => {
                self.note(Problem::Range, r.column);
                Ok(())
            }
        }
    }

    // `A apart D B E`, after `apart`.
    fn apart(
        &mut self,
        owner: Option<usize>,
        named: Name<'a>,
        words: &[Placed<'a>],
    ) -> Result<(), Stop>
        ensures { FormTells after_apart result owner (tree_name named.entry) (progress self.old) words.now (progress self.new) }
    {
        let a = self.cell_named(named);
        let (d, rest) = next_number(words)?;
        let (other, rest) = next_name(rest)?;
        let b = self.cell_named(other);
        let (e, rest) = next_number(rest)?;
        end(rest)?;
        self.push(owner, Form::Apart(a, d.value, b, e.value))
    }

    // An expression, `<=`, an expression: a gap of 0, made after its helpers, which nothing owns.
    fn at_most(&mut self, owner: Option<usize>, words: &[Placed<'a>]) -> Result<(), Stop>
        ensures { BoundTells result owner (progress self.old) words.now (progress self.new) }
    {
        let (left, rest) = self.expression(words, 0)?;
        let rest = expect(rest, Symbol::AtMost)?;
        let (right, rest) = self.expression(rest, 0)?;
        end(rest)?;
        self.push(owner, Form::Gap(left, 0, right))
    }

    // What a line asks, after the premise that owns it.
    pub(crate) fn body(&mut self, owner: Option<usize>, words: &[Placed<'a>]) -> Result<(), Stop>
        ensures { BodyTells result owner (progress self.old) words.now (progress self.new) }
    {
        let [first, second, rest @ ..] = words else {
            return self.at_most(owner, words);
        };
        let column = first.column;
        match (first.token, second.token) {
            (Token::Name(bytes), Token::Reserved(keyword)) => {
                let named = Name { column, bytes };
                match keyword {
                    Keyword::In => self.within(owner, named, rest),
                    Keyword::Align => self.aligned(owner, named, rest),
                    Keyword::Apart => self.apart(owner, named, rest),
                    _ => Err(Stop::Word(second.column)),
                }
            }
            _ => self.at_most(owner, words),
        }
    }
}
