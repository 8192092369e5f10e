// What the sheets around a fault tell of it: where a name is declared, and how much is made up to a line.
use crate::source::{Sheets, before, is_end};
use faults::Fault;
use plan::plan::Plan;
use plan::texts::Texts;
use sheet::sheets::read;
use std::alloc::{AllocError, Global};
use std::fmt;
use words::{Keyword, Placed, ReadError, Symbol, Token};

/// A fault in one of two sheets, and the heap for what is said of it.
#[derive(Clone, Copy)]
pub struct Faulty<'a> {
    pub heap: Global,
    pub sheets: Sheets<'a>,
    pub fault: Fault,
}

/// A declaration: of a cell or a premise, on a line of a file.
#[derive(Clone, Copy)]
pub struct Declaration<'a> {
    pub sort: Sort,
    pub file: &'a str,
    pub line: usize,
}

/// What a name may be declared as.
#[derive(Clone, Copy, Debug, PartialEq, Eq)]
pub enum Sort {
    Cell,
    Premise,
}

/// How many cells, constraints and premises there are.
#[derive(Clone, Copy, Default)]
pub struct Counts {
    pub cells: usize,
    pub constraints: usize,
    pub premises: usize,
}

impl fmt::Display for Sort {
    fn fmt<W: fmt::Write>(&self, f: &mut fmt::Formatter<W>) -> fmt::Result {
        f.write_str(match self {
            Sort::Cell => "cell",
            Sort::Premise => "premise",
        })
    }
}

/// The words of a line; none where it has a byte, number or name that no line has.
pub(crate) fn words_of<'a>(heap: Global, line: &'a [u8]) -> Result<Vec<Placed<'a>>, AllocError> {
    match words::words(heap, line) {
        Ok(found) => Ok(found),
        Err(ReadError::Memory) => Err(AllocError),
        Err(ReadError::Fault(_, _)) => Ok(Vec::new(heap)),
    }
}

// What the words declare the name as, if they do.
fn declares(found: &[Placed<'_>], name: &[u8]) -> Option<Sort> {
    let [first, second] = found else {
        return None;
    };
    match (first.token, second.token) {
        (Token::Reserved(keyword), Token::Name(declared)) if declared == name => match keyword {
            Keyword::Cell => Some(Sort::Cell),
            Keyword::Premise => Some(Sort::Premise),
            _ => None,
        },
        _ => None,
    }
}

// How many helper cells a line has, each with a constraint: one for each number and each `+` around a `<=`.
fn helpers(found: &[Placed<'_>]) -> usize {
    let is_bound = found
        .iter()
        .any(|word| matches!(word.token, Token::Symbol(Symbol::AtMost)));
    if !is_bound {
        return 0;
    }
    found
        .iter()
        .filter(|word| matches!(word.token, Token::Symbol(Symbol::Plus) | Token::Number(_)))
        .count()
}

// What a line that is right makes.
fn made_by(found: &[Placed<'_>]) -> Counts {
    let none = Counts::default();
    match found.first().map(|word| word.token) {
        None => none,
        Some(Token::Reserved(Keyword::Cell)) => Counts { cells: 1, ..none },
        Some(Token::Reserved(_)) => Counts {
            premises: 1,
            ..none
        },
        Some(_) => {
            let cells = helpers(found);
            Counts {
                cells,
                constraints: cells.saturating_add(1),
                premises: 0,
            }
        }
    }
}

impl<'a> Faulty<'a> {
    /// The first declaration of a name, in the chip sheet or else in the project sheet.
    pub(crate) fn declaration(self, name: &[u8]) -> Result<Option<Declaration<'a>>, AllocError> {
        for sheet in [self.sheets.chip, self.sheets.project] {
            for (i, bytes) in sheet.text.split(is_end).enumerate() {
                let found = words_of(self.heap, bytes)?;
                if let Some(sort) = declares(found.as_slice(), name) {
                    return Ok(Some(Declaration {
                        sort,
                        file: sheet.file,
                        line: i.saturating_add(1),
                    }));
                }
            }
        }
        Ok(None)
    }

    /// How much is made up to the line of the fault, that line with these words included.
    pub(crate) fn made_up_to(self, found: &[Placed<'_>]) -> Counts {
        let mut plan = Plan::new(self.heap);
        let cut = before(self.sheets.sheet(self.fault.text).text, self.fault.line);
        let texts = match self.fault.text {
            0 => Texts {
                chip: cut,
                project: &[],
            },
            _ => Texts {
                chip: self.sheets.chip.text,
                project: cut,
            },
        };
        // The lines before the first fault have none, so that this is read; if not, the line is all that counts.
        let _ = read(self.heap, &mut plan, texts);
        let line = made_by(found);
        Counts {
            cells: line.cells.saturating_add(plan.cell_count()),
            constraints: line.constraints.saturating_add(plan.constraint_count()),
            premises: line.premises.saturating_add(plan.premise_count()),
        }
    }
}
