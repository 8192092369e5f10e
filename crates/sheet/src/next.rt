// The next word of a line, where a certain one is wanted, and the words after it.
ghost use Rattle.std.specs.Prelude.{◌≡◌};
ghost use Rattle.sheet.specs.Next.{stop_at, AfterTells, SymbolTells, NumberTells, NameTells, ToTells, EndTells};

use crate::reading::Stop;
use words::{Keyword, Placed, Symbol, Token};

/// A name where it stands.
#[derive(Clone, Copy)]
pub struct Name<'a> {
    pub column: usize,
    pub bytes: &'a [u8],
}

/// A number where it stands.
#[derive(Clone, Copy)]
pub struct Number {
    pub column: usize,
    pub value: u32,
}

// Words that cannot go on so: the first is wrong, or there are too few.
fn stop_at(words: &[Placed<'_>]) -> Stop
    ensures { result ≡ stop_at words.now }
{
    match words {
        [first, ..] => Stop::Word(first.column),
        [] => Stop::Short,
    }
}

// The words after a symbol, if it comes next.
pub(crate) fn after<'w, 'a>(words: &'w [Placed<'a>], symbol: Symbol) -> Option<&'w [Placed<'a>]>
    ensures { AfterTells symbol result words.now }
{
    let [first, rest @ ..] = words else {
        return None;
    };
    match first.token {
        Token::Symbol(found) if found == symbol => Some(rest),
        _ => None,
    }
}

// The words after a symbol that has to come next.
pub(crate) fn expect<'w, 'a>(
    words: &'w [Placed<'a>],
    symbol: Symbol,
) -> Result<&'w [Placed<'a>], Stop>
    ensures { SymbolTells symbol result words.now }
{
    after(words, symbol).ok_or(stop_at(words))
}

// A number. Each kind of word has a reader of its own: one for all would take what a word gives as a closure, and its
// clause anew from each caller.
pub(crate) fn next_number<'w, 'a>(
    words: &'w [Placed<'a>],
) -> Result<(Number, &'w [Placed<'a>]), Stop>
    ensures { NumberTells result words.now }
{
    let [first, rest @ ..] = words else {
        return Err(Stop::Short);
    };
    let column = first.column;
    match first.token {
        Token::Number(value) => Ok((Number { column, value }, rest)),
        _ => Err(Stop::Word(column)),
    }
}

// A name.
pub(crate) fn next_name<'w, 'a>(
    words: &'w [Placed<'a>],
) -> Result<(Name<'a>, &'w [Placed<'a>]), Stop>
    ensures { NameTells result words.now }
{
    let [first, rest @ ..] = words else {
        return Err(Stop::Short);
    };
    let column = first.column;
    match first.token {
        Token::Name(bytes) => Ok((Name { column, bytes }, rest)),
        _ => Err(Stop::Word(column)),
    }
}

// The word `to`.
pub(crate) fn next_to<'w, 'a>(words: &'w [Placed<'a>]) -> Result<&'w [Placed<'a>], Stop>
    ensures { ToTells result words.now }
{
    let [first, rest @ ..] = words else {
        return Err(Stop::Short);
    };
    match first.token {
        Token::Reserved(Keyword::To) => Ok(rest),
        _ => Err(Stop::Word(first.column)),
    }
}

// The end of the line.
pub(crate) fn end(words: &[Placed<'_>]) -> Result<(), Stop>
    ensures { EndTells result words.now }
{
    match words {
        [] => Ok(()),
        [first, ..] => Err(Stop::Word(first.column)),
    }
}
