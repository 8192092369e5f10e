// Expressions and terms, whose readers call each other.
ghost use Rattle.std.specs.Prelude.{◌≤◌};
ghost use Rattle.sheet.specs.Progress.{progress};
ghost use Rattle.sheet.specs.Reads.{TermTells, ExpressionTells};

use crate::next::{Name, after, expect};
use crate::reading::{Reading, Stop};
use words::{Placed, Symbol, Token};

/// How deep parentheses may nest.
pub const DEEPEST: usize = 16;

impl<'a> Reading<'a> {
    /// Terms joined by `+`: the cell that holds the value, and the words that remain.
    #[cycle(expression_term)]
    pub(crate) fn expression<'w>(
        &mut self,
        words: &'w [Placed<'a>],
        depth: usize,
    ) -> Result<(usize, &'w [Placed<'a>]), Stop>
        requires { depth ≤ 16 }
        ensures { ExpressionTells result (progress self.old) words.now depth (progress self.new) }
    {
        let (mut sum, mut rest) = self.term(words, depth)?;
        while let Some(added) = after(rest, Symbol::Plus) {
            let (cell, next) = self.term(added, depth)?;
            sum = self.add_sum(sum, cell)?;
            rest = next;
        }
        Ok((sum, rest))
    }

    // A name, a number, or an expression in parentheses.
    #[cycle(expression_term)]
    fn term<'w>(
        &mut self,
        words: &'w [Placed<'a>],
        depth: usize,
    ) -> Result<(usize, &'w [Placed<'a>]), Stop>
        requires { depth ≤ 16 }
        ensures { TermTells result (progress self.old) words.now depth (progress self.new) }
    {
        let [first, rest @ ..] = words else {
            return Err(Stop::Short);
        };
        let column = first.column;
        match first.token {
            Token::Name(bytes) => Ok((self.cell_named(Name { column, bytes }), rest)),
            Token::Number(n) => Ok((self.add_number(n)?, rest)),
            Token::Symbol(Symbol::Open) => {
                if depth >= DEEPEST {
                    return Err(Stop::Deep(column));
                }
                let (cell, rest) = self.expression(rest, depth + 1)?;
                let rest = expect(rest, Symbol::Close)?;
                Ok((cell, rest))
            }
            _ => Err(Stop::Word(column)),
        }
    }
}
