// What is wrong with a sheet, and where.
#![tactic(auto)]

ghost use Rattle.std.specs.Prelude.{◌≡◌, Some};
ghost use Rattle.faults.specs.Faults.{number_of, layer_of, layer_word};

use std::fmt;

/// What is wrong with a line, or with a text as a whole.
#[derive(Clone, Copy, Debug, PartialEq, Eq)]
pub enum Problem {
    /// The text has more than 32,768 bytes.
    LongText = 10,
    /// A byte that no word has there.
    Byte = 11,
    /// A number above 4,294,967,295.
    LargeNumber = 12,
    /// A name of more than 16 bytes.
    LongName = 13,
    /// A word that no line can have there, or a line that is too short.
    Word = 14,
    /// Parentheses that nest more than 16 deep.
    Nesting = 15,
    /// A name that is unknown so far, or of the other sort.
    Unknown = 16,
    /// A name that was declared before.
    Twice = 17,
    /// More cells, premises or constraints than a plan may have.
    Full = 18,
    /// A number outside its range.
    Range = 19,
}

/// Which layer of reading found a problem: the faults of a line are looked for layer by layer.
#[derive(Clone, Copy, Debug, PartialEq, Eq)]
pub enum Layer {
    Reader,
    Grammar,
    Sheet,
}

/// A problem and its column in a line, from 1.
#[derive(Clone, Copy, Debug, PartialEq, Eq)]
pub struct Found {
    pub problem: Problem,
    pub column: usize,
}

/// A problem and its place: the text (0 the chip text, 1 the project text), line and column from 1.
#[derive(Clone, Copy, Debug, PartialEq, Eq)]
pub struct Fault {
    pub problem: Problem,
    // A number, as callers may hold any: an enum of the two texts would be a narrower type, and so ask more of them.
    pub text: usize,
    pub line: usize,
    pub column: usize,
}

impl Problem {
    /// The number by which programs know the problem.
    pub fn number(self) -> u8
        ensures { result ≡ number_of self }
    {
        self as u8
    }

    /// The layer that finds the problem.
    pub fn layer(self) -> Layer
        ensures { result ≡ layer_of self }
    {
        match self {
            Problem::Byte | Problem::LargeNumber | Problem::LongName => Layer::Reader,
            Problem::Word | Problem::Nesting => Layer::Grammar,
            Problem::LongText
            | Problem::Unknown
            | Problem::Twice
            | Problem::Full
            | Problem::Range => Layer::Sheet,
        }
    }
}

impl fmt::Display for Layer {
    ghost output = { λ layer. Some (layer_word layer) };

    fn fmt<W: fmt::Write>(&self, f: &mut fmt::Formatter<W>) -> fmt::Result {
        f.write_str(match *self {
            Layer::Reader => "reader",
            Layer::Grammar => "grammar",
            Layer::Sheet => "sheet",
        })
    }
}
