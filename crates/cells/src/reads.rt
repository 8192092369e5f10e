// What a tell reads of a lent table.
ghost use Rattle.std.specs.Prelude.{◌≡◌, ◌<◌, length};
ghost use Rattle.statements.specs.Numbers.{InU};
ghost use Rattle.facts.specs.Derived.{low, high};
ghost use Rattle.forms.specs.Tells.{saying_reads, reads, said as saidBy, up, down};
ghost use Rattle.telling.specs.Tables.{facts, reasons_of};
ghost use Rattle.telling.specs.Telling.{lows, highs, is_made};
ghost use Rattle.cells.specs.Meaning.{tags_of, table_of, FitTell};
ghost use Rattle.cells.specs.Fits.{FitTell-prop};

use crate::cell::Cell;
use crate::reasons::Reasons;
use facts::kind::Kind;
use facts::tidy::{highest, lowest};
use forms::tell::{Condition, Saying, Tell};
use statements::numbers::{BOTTOM, TOP};
use statements::statement::Statement;

// The least number of s from n up, M + 1 where there is none.
fn least(s: Statement, n: i64) -> i64
    ensures { result ≡ up s n }
{
    s.least_from(n).unwrap_or(TOP + 1)
}

// The greatest number of s from n down, -M - 1 where there is none.
// It mirrors least: with a direction to pass, one function would be longer than the two.
fn greatest(s: Statement, n: i64) -> i64
    ensures { result ≡ down s n }
{
    s.greatest_to(n).unwrap_or(BOTTOM - 1)
}

// A tell, and a lent table that has the cells that it reads.
#[derive(Drop)]
pub(crate) struct Reading<'t, K> {
    pub(crate) table: &'t [Cell<K>],
    pub(crate) tell: Tell,
    ghost fits: { FitTell (length table.now) tell } by { FitTell-prop (length table.now) tell },
}

impl<K: Kind> Reading<'_, K> {
    // The lowest of cell x.
    fn low(&self, x: usize) -> i64
        requires { x < length self.now.table.now }
        ensures is { result ≡ low K.model (table_of K.model self.now.table.now x).fact }
        ensures within { InU result }
    {
        lowest(self.table[x].fact)
    }

    // The highest of cell x.
    // It mirrors low: with a direction to pass, one function would be longer than the two.
    fn high(&self, x: usize) -> i64
        requires { x < length self.now.table.now }
        ensures is { result ≡ high K.model (table_of K.model self.now.table.now x).fact }
        ensures within { InU result }
    {
        highest(self.table[x].fact)
    }

    // Whether the tell's condition holds.
    pub(crate) fn is_made(&self) -> bool
        ensures { result ≡ is_made K.model (facts (table_of K.model self.now.table.now)) self.now.tell }
    {
        match self.tell.condition {
            Condition::Always => true,
            Condition::Above(a, d, b) => self.high(b) < self.low(a) + d,
        }
    }

    // What the tell says.
    pub(crate) fn said(&self) -> Statement
        ensures { result ≡ saidBy (lows K.model (facts (table_of K.model self.now.table.now))) (highs K.model (facts (table_of K.model self.now.table.now))) self.now.tell.saying }
    {
        match self.tell.saying {
            Saying::Stated(s) => s,
            Saying::Cut(x, s) => {
                Statement::Between(least(s, self.low(x)), greatest(s, self.high(x)))
            }
            Saying::Plus(x, y) => {
                Statement::Between(self.low(x) + self.low(y), self.high(x) + self.high(y))
            }
            Saying::Minus(x, y) => {
                Statement::Between(self.low(x) - self.high(y), self.high(x) - self.low(y))
            }
            Saying::From(x, d) => Statement::Between(self.low(x) + d, TOP),
            Saying::UpTo(x, d) => Statement::Between(BOTTOM, self.high(x) - d),
        }
    }

    // The reasons of the cells that the saying reads.
    fn saying_reasons(&self) -> Reasons
        ensures { tags_of result ≡ reasons_of (table_of K.model self.now.table.now) (saying_reads self.now.tell.saying) }
    {
        match self.tell.saying {
            Saying::Stated(_) => Reasons::none(),
            Saying::Cut(x, _) | Saying::From(x, _) | Saying::UpTo(x, _) => self.table[x].reasons,
            Saying::Plus(x, y) | Saying::Minus(x, y) => {
                self.table[x].reasons.union(self.table[y].reasons)
            }
        }
    }

    // The reasons of the cells that the tell or its condition reads.
    pub(crate) fn reasons(&self) -> Reasons
        ensures { tags_of result ≡ reasons_of (table_of K.model self.now.table.now) (reads self.now.tell) }
    {
        let said = self.saying_reasons();
        match self.tell.condition {
            Condition::Always => said,
            Condition::Above(a, _, b) => {
                let rest = self.table[b].reasons.union(said);
                self.table[a].reasons.union(rest)
            }
        }
    }
}
