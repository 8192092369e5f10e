// The words of a line of a sheet, each with its column, or the first fault of its bytes.
#![tactic(auto)]

ghost use Rattle.std.specs.Prelude.{◌≡◌, ◌<◌, length, slice_index};
ghost use Rattle.std.specs.List.{prefix_len, take_while};
ghost use Rattle.words.specs.declared.ReadError.TheVariants.{Memory};
ghost use Rattle.words.specs.Class.{is_class};
ghost use Rattle.words.specs.Examples.{ReadLines, FaultyLines};
ghost use Rattle.words.specs.Keywords.{keyword_of};
ghost use Rattle.words.specs.Laid.{ExactWords, ExactFaults};
ghost use Rattle.words.specs.Spelling.{WordsStand, WordsRise};
ghost use Rattle.words.specs.Words.{solid, decimal, up_to, symbol_of, front_of, name_at, number_at, symbol_at, meant_front, words_of, Tells};

use std::alloc::{AllocFailed, Global};

mod class;

pub use class::{CLASS, DIGIT, END, LETTER, SPACE, SYMBOL, class_of};

// The type is that of a sum of digits, and the number its own: words stand on no other crate.
/// The largest number that a word may be.
pub const TOP: u64 = 4_294_967_295;

// It is the largest that a number's type holds.
const _: () = prove!(TOP == u32::MAX as u64);

/// The most bytes that a name may have.
pub const LONGEST: usize = 16;

/// A reserved word, written in small letters.
#[derive(Clone, Copy, Debug, PartialEq, Eq)]
pub enum Keyword {
    Cell,
    Premise,
    In,
    To,
    Align,
    Apart,
}

/// A symbol: `:`, `+`, `(`, `)`, `<=` and `=`.
#[derive(Clone, Copy, Debug, PartialEq, Eq)]
pub enum Symbol {
    Colon,
    Plus,
    Open,
    Close,
    AtMost,
    Equals,
}

/// A word of a line: a name is a part of the line, the others are plain values.
#[derive(Clone, Copy)]
pub enum Token<'a> {
    Name(&'a [u8]),
    Number(u32),
    Reserved(Keyword),
    Symbol(Symbol),
}

/// A word and its column, counted from 1.
#[derive(Clone, Copy)]
pub struct Placed<'a> {
    pub token: Token<'a>,
    pub column: usize,
}

/// What can be wrong with the bytes of a line: a byte that no word has there, a number above `TOP`, a name of more
/// bytes than `LONGEST`.
#[derive(Clone, Copy, Debug, PartialEq, Eq)]
pub enum Slip {
    Byte,
    Large,
    Long,
}

/// Why a line has no words: want of memory, or its first fault with its column.
#[derive(Clone, Copy, Debug, PartialEq, Eq)]
pub enum ReadError {
    Memory,
    Fault(Slip, usize),
}

// What the rest of a line begins with: a byte between words, a word and its length, or a fault so many bytes on.
#[derive(Clone, Copy)]
enum Front<'a> {
    Space,
    Word(Token<'a>, usize),
    Bad(Slip, usize),
}

impl<T: Drop> From<AllocFailed<T>> for ReadError {
    ghost from_gives = { λ _ e. e ≡ Memory };

    fn from(_e: AllocFailed<T>) -> ReadError {
        ReadError::Memory
    }
}

// Whether a byte may go on a word: a letter or a digit, or from `DIGIT` on a digit alone.
fn is_solid(b: u8, least: u8) -> bool
    ensures { result ≡ solid least b }
{
    (least..=DIGIT).contains(&class_of(b))
}

/// How many bytes at the front have a class from `least` to that of digits.
pub fn run_len(s: &[u8], least: u8) -> usize
    ensures { result ≡ prefix_len (solid least) s.now }
{
    s.iter().take_while(|b| is_solid(**b, least)).count()
}

// Whether some bytes begin with a letter.
fn begins_with_letter(s: &[u8]) -> bool
    ensures { result ≡ is_class 1 (slice_index s.now 0) }
{
    match s {
        [first, ..] => class_of(*first) == LETTER,
        [] => false,
    }
}

// The number that digits write, absent above `TOP`.
fn number(digits: &[u8]) -> Option<u32>
    ensures { result ≡ up_to (decimal digits.now) }
{
    let mut value: u32 = 0;
    for digit in digits {
        value = value
            .checked_mul(10)?
            .checked_add(u32::from(digit.saturating_sub(b'0')))?;
    }
    Some(value)
}

// A function, and no TryFrom: that most words are no keywords is no error.
/// The reserved word that some bytes spell, if any.
pub fn keyword_of(word: &[u8]) -> Option<Keyword>
    ensures { result ≡ keyword_of word.now }
{
    match word {
        b"cell" => Some(Keyword::Cell),
        b"premise" => Some(Keyword::Premise),
        b"in" => Some(Keyword::In),
        b"to" => Some(Keyword::To),
        b"align" => Some(Keyword::Align),
        b"apart" => Some(Keyword::Apart),
        _ => None,
    }
}

// The symbol of one byte, of those that have one.
// A function, and no From, as it is right only for the bytes that have a symbol.
fn symbol_of(b: u8) -> Symbol
    ensures { result ≡ symbol_of b }
{
    match b {
        b':' => Symbol::Colon,
        b'+' => Symbol::Plus,
        b'(' => Symbol::Open,
        b')' => Symbol::Close,
        _ => Symbol::Equals,
    }
}

// A reserved word or a name at the front, which begins with a letter.
fn name_front<'a>(rest: &'a [u8]) -> Front<'a>
    ensures { meant_front result ≡ name_at (take_while (solid 1) rest.now) }
{
    let n = run_len(rest, LETTER);
    if n > LONGEST {
        return Front::Bad(Slip::Long, 0);
    }
    let bytes = &rest[..n];
    match keyword_of(bytes) {
        Some(keyword) => Front::Word(Token::Reserved(keyword), n),
        None => Front::Word(Token::Name(bytes), n),
    }
}

// A number at the front, which begins with a digit; a letter straight after it is a fault.
fn number_front<'a>(rest: &'a [u8]) -> Front<'a>
    ensures { meant_front result ≡ number_at (take_while (solid 2) rest.now) rest.now }
{
    let n = run_len(rest, DIGIT);
    let Some(value) = number(&rest[..n]) else {
        return Front::Bad(Slip::Large, 0);
    };
    if begins_with_letter(&rest[n..]) {
        return Front::Bad(Slip::Byte, n);
    }
    Front::Word(Token::Number(value), n)
}

// A symbol at the front; `<` is one only with `=` straight after it.
fn symbol_front<'a>(first: u8, after: &[u8]) -> Front<'a>
    ensures { meant_front result ≡ symbol_at first (slice_index after.now 0) }
{
    match (first, after) {
        (b'<', [b'=', ..]) => Front::Word(Token::Symbol(Symbol::AtMost), 2),
        (b'<', _) => Front::Bad(Slip::Byte, 0),
        _ => Front::Word(Token::Symbol(symbol_of(first)), 1),
    }
}

// What the rest of a line begins with.
fn begins<'a>(rest: &'a [u8]) -> Front<'a>
    requires { 0 < length rest.now }
    ensures { meant_front result ≡ front_of rest.now }
{
    let first = rest[0];
    match class_of(first) {
        LETTER => name_front(rest),
        DIGIT => number_front(rest),
        SPACE | END => Front::Space,
        SYMBOL => symbol_front(first, &rest[1..]),
        _ => Front::Bad(Slip::Byte, 0),
    }
}

/// The words of a line in their order, or its first fault. It changes nothing, and refuses besides only for want of
/// memory.
pub fn words<'a>(heap: Global, line: &'a [u8]) -> Result<Vec<Placed<'a>>, ReadError>
    ensures { Tells result (words_of line.now) }
{
    let mut out = Vec::new(heap);
    let mut rest = line;
    let mut column = 1;
    // The column is counted with the rest, since each word takes as many bytes as it has.
    while let [_, after @ ..] = rest {
        match begins(rest) {
            Front::Space => {
                rest = after;
                column += 1;
            }
            Front::Word(token, len) => {
                out.push(Placed { token, column })?;
                rest = &rest[len..];
                column += len;
            }
            Front::Bad(slip, on) => return Err(ReadError::Fault(slip, column + on)),
        }
    }
    Ok(out)
}

/// A line has exactly the words that it is laid out as, or exactly the fault that stands after them. Each word stands in
/// the line, a name as the line's own bytes, and the columns rise from word to word.
pub fn words_stand()
    ensures words { ExactWords }
    ensures faults { ExactFaults }
    ensures standing { WordsStand }
    ensures rising { WordsRise }
{}

/// The words of some lines, and the faults of others.
pub fn samples_stand()
    ensures lines { ReadLines }
    ensures faults { FaultyLines }
{}
