// A fault in words that help: what is wrong, and what would be right.
use crate::expect::next_at;
use crate::known::{Counts, Declaration, Faulty, Sort, words_of};
use crate::source::{Shown, line_of, word_at};
use faults::Problem;
use plan::plans::{CELLS, CONSTRAINTS, PREMISES};
use sheet::sheets::LONGEST;
use sheet::{DEEPEST, FINEST};
use std::alloc::{AllocError, Global};
use words::{LONGEST as LONGEST_NAME, Placed, Symbol, TOP, Token};

// A byte that no word has there.
fn byte_words(heap: Global, byte: u8) -> Result<String, AllocError> {
    let shown = [byte];
    let shown = Shown(&shown);
    match byte {
        b'\r' => String::from_str(
            heap,
            "a carriage return: the file has CRLF line ends; save it with LF line ends",
        ),
        b'\t' => String::from_str(heap, "a tab; words stand apart by spaces"),
        b'<' => String::from_str(heap, "`<` without `=` straight after it; `<=` is one word"),
        b'A'..=b'Z' | b'a'..=b'z' | b'_' | b'.' => {
            format!(in heap;
                "`{shown}` straight after a number; numbers are decimal, and a space ends one"
            )
        }
        b'!'..=b'~' => format!(in heap; "`{shown}` has no meaning in a sheet"),
        _ => format!(in heap; "byte {byte} has no meaning in a sheet; sheets are plain ASCII text"),
    }
}

// A word that cannot stand where it does, or the end of a line that is too short.
fn word_words(
    heap: Global,
    word: &[u8],
    found: &[Placed<'_>],
    column: usize,
) -> Result<String, AllocError> {
    let expected = next_at(found, column);
    if word.is_empty() {
        return format!(in heap; "the line ends too early; expected {expected}");
    }
    let shown = Shown(word);
    if words::keyword_of(word).is_some() {
        return format!(in heap;
            "the reserved word `{shown}` cannot stand here; expected {expected}"
        );
    }
    format!(in heap; "`{shown}` cannot stand here; expected {expected}")
}

// The sort that the name at a column has to be of.
fn wanted_sort(found: &[Placed<'_>], column: usize) -> Sort {
    let [first, second, ..] = found else {
        return Sort::Cell;
    };
    match second.token {
        Token::Symbol(Symbol::Colon) if first.column == column => Sort::Premise,
        _ => Sort::Cell,
    }
}

// More than a plan may have.
fn full_words(heap: Global, counts: Counts) -> Result<String, AllocError> {
    let Counts {
        cells,
        constraints,
        premises,
    } = counts;
    if premises > PREMISES {
        return format!(in heap;
            "with this line there are {premises} premises; a plan has at most {PREMISES}"
        );
    }
    if constraints <= CONSTRAINTS {
        return format!(in heap;
            "with this line there are {cells} cells, helpers counted; a plan has at most {CELLS}"
        );
    }
    if cells <= CELLS {
        return format!(in heap;
            "with this line there are {constraints} constraints, those of helpers counted; a plan has at most {CONSTRAINTS}"
        );
    }
    format!(in heap;
        "with this line there are {cells} cells and {constraints} constraints, helpers counted; a plan has at most {CELLS} and {CONSTRAINTS}"
    )
}

// The first number of a line.
fn first_number(found: &[Placed<'_>]) -> u32 {
    found
        .iter()
        .find_map(|word| match word.token {
            Token::Number(n) => Some(n),
            _ => None,
        })
        .unwrap_or(0)
}

// A power, or what is left by it, outside its range.
fn range_words(heap: Global, k: u32, number: &[u8]) -> Result<String, AllocError> {
    let shown = Shown(number);
    if k > FINEST {
        return format!(in heap; "the power {shown} is outside its range, 0 to {FINEST}");
    }
    let last = (1u32 << k) - 1;
    format!(in heap; "the rest {shown} is outside its range, 0 to {last} for the power {k}")
}

impl Faulty<'_> {
    // A name that is unknown so far, or of the other sort.
    fn unknown_words(self, name: &[u8], wanted: Sort) -> Result<String, AllocError> {
        let heap = self.heap;
        let shown = Shown(name);
        let Some(declared) = self.declaration(name)? else {
            return format!(in heap;
                "`{shown}` is not declared; expected a {wanted} that is declared above"
            );
        };
        let Declaration { sort, file, line } = declared;
        if sort == wanted {
            return format!(in heap;
                "the {wanted} `{shown}` is declared only later, at {file}:{line}"
            );
        }
        format!(in heap; "`{shown}` is a {sort}, declared at {file}:{line}; expected a {wanted}")
    }

    // A name that was declared before.
    fn twice_words(self, name: &[u8]) -> Result<String, AllocError> {
        let heap = self.heap;
        let shown = Shown(name);
        let Some(declared) = self.declaration(name)? else {
            return format!(in heap; "`{shown}` was declared before");
        };
        let Declaration { sort, file, line } = declared;
        format!(in heap; "`{shown}` was declared before, as a {sort}, at {file}:{line}")
    }

    // What is wrong with a word of a line.
    fn line_words(self, line: &[u8]) -> Result<String, AllocError> {
        let heap = self.heap;
        let column = self.fault.column;
        let word = word_at(line, column);
        let shown = Shown(word);
        let found = words_of(heap, line)?;
        let found = found.as_slice();
        match self.fault.problem {
            Problem::Byte => byte_words(heap, word.first().copied().unwrap_or(0)),
            Problem::LargeNumber => format!(in heap;
                "the number {shown} is too large; the largest is {TOP}"
            ),
            Problem::LongName => {
                let len = word.len();
                format!(in heap;
                    "the name `{shown}` has {len} bytes; a name has at most {LONGEST_NAME}"
                )
            }
            Problem::Nesting => format!(in heap; "parentheses nest more than {DEEPEST} deep"),
            Problem::Unknown => self.unknown_words(word, wanted_sort(found, column)),
            Problem::Twice => self.twice_words(word),
            Problem::Full => full_words(heap, self.made_up_to(found)),
            Problem::Range => range_words(heap, first_number(found), word),
            _ => word_words(heap, word, found, column),
        }
    }

    /// What is wrong, in words.
    pub(crate) fn explained(self) -> Result<String, AllocError> {
        let heap = self.heap;
        let text = self.sheets.sheet(self.fault.text).text;
        if self.fault.problem == Problem::LongText {
            let len = text.len();
            return format!(in heap; "the file has {len} bytes; a sheet has at most {LONGEST}");
        }
        self.line_words(line_of(text, self.fault.line))
    }
}
