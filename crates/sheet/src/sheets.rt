// Two texts, read into a plan.
ghost use Rattle.std.specs.Prelude.{◌≡◌, ℕ, ◌+◌, ◌≤◌, length, None};
ghost use Rattle.sheet.specs.declared.sheets.ReadError.TheVariants.{Fault as Failed};
ghost use Rattle.plan.specs.Items.{planned};
ghost use Rattle.plan.specs.Names.{texts_of};
ghost use Rattle.sheet.specs.Progress.{progress};
ghost use Rattle.sheet.specs.Sheets.{slip_problem, too_long, sheets_read, trees_of};
ghost use Rattle.sheet.specs.Answers.{unworded, stopped, fault_at, Ended, LineReads, TextReads, BothRead, Reads, Solved};

use crate::line::Start;
use crate::reading::{Reading, Stop};
use faults::{Fault, Found, Problem};
use plan::draft::Draft;
use plan::plan::Plan;
use plan::texts::Texts;
use std::alloc::Global;
use words::{Slip, words};

/// How many bytes a text may have.
pub const LONGEST: usize = 32_768;

/// Why two texts are not read: want of memory, or their first fault.
#[derive(Clone, Copy, Debug, PartialEq, Eq)]
pub enum ReadError {
    Memory,
    Fault(Fault),
}

/// Why a line is not read.
#[derive(Clone, Copy, Debug, PartialEq, Eq)]
pub enum Trouble {
    Memory,
    Found(Found),
}

// A slip is a problem of the sheet. Both types are of other crates, so a From cannot stand here.
fn problem_of(slip: Slip) -> Problem
    ensures { result ≡ slip_problem slip }
{
    match slip {
        Slip::Byte => Problem::Byte,
        Slip::Large => Problem::LargeNumber,
        Slip::Long => Problem::LongName,
    }
}

impl From<words::ReadError> for Trouble {
    ghost from_gives = { λ e t. t ≡ unworded e };

    fn from(error: words::ReadError) -> Trouble {
        match error {
            words::ReadError::Memory => Trouble::Memory,
            words::ReadError::Fault(slip, column) => {
                let problem = problem_of(slip);
                Trouble::Found(Found { problem, column })
            }
        }
    }
}

impl Stop {
    // What a line is faulty for that stops so, by the column just past its n bytes.
    fn trouble(self, past: usize) -> Trouble
        ensures { (n : ℕ) → past ≡ n + 1 → result ≡ stopped n self }
    {
        let (problem, column) = match self {
            Stop::Memory => return Trouble::Memory,
            Stop::Word(column) => (Problem::Word, column),
            Stop::Deep(column) => (Problem::Nesting, column),
            Stop::Short => (Problem::Word, past),
        };
        Trouble::Found(Found { problem, column })
    }
}

impl Trouble {
    // Why two texts are not read that have this trouble in a line.
    fn at(self, text: usize, line: usize) -> ReadError
        ensures { result ≡ fault_at text line self }
    {
        match self {
            Trouble::Memory => ReadError::Memory,
            Trouble::Found(found) => ReadError::Fault(Fault {
                problem: found.problem,
                text,
                line,
                column: found.column,
            }),
        }
    }
}

impl<'a> Reading<'a> {
    // What is wrong with a line whose words are a line.
    fn ended(&self) -> Result<(), Trouble>
        ensures { Ended result (progress self.now) }
    {
        if let Some(found) = self.found {
            return Err(Trouble::Found(found));
        }
        if !self.draft.is_few() {
            return Err(Trouble::Found(Found {
                problem: Problem::Full,
                column: 1,
            }));
        }
        Ok(())
    }

    // One line of bytes.
    fn read_line(&mut self, heap: Global, start: Start, bytes: &'a [u8]) -> Result<(), Trouble>
        requires fresh { self.old.found ≡ None }
        requires inside { start.offset + length bytes.now ≤ 32768 }
        ensures { LineReads result start (progress self.old) bytes.now (progress self.new) }
    {
        let found = words(heap, bytes)?;
        // By a match, and no map_err: the proof would have to open the clause of its closure.
        match self.line(start, found.as_slice()) {
            Ok(()) => self.ended(),
            Err(stop) => Err(stop.trouble(bytes.len() + 1)),
        }
    }

    // All lines of a text.
    fn read_text(&mut self, heap: Global, number: usize, text: &'a [u8]) -> Result<(), ReadError>
        requires fresh { self.old.found ≡ None }
        requires short { length text.now ≤ 32768 }
        ensures { TextReads result number (progress self.old) text.now (progress self.new) }
    {
        // The offset is counted beside the lines: no iterator of the library gives where a part begins.
        let mut offset = 0;
        for (i, bytes) in text.split(|b| *b == b'\n').enumerate() {
            let start = Start {
                text: number,
                offset,
            };
            // By a test, and no map_err: the proof would have to open the clause of its closure.
            if let Err(trouble) = self.read_line(heap, start, bytes) {
                return Err(trouble.at(number, i + 1));
            }
            offset += bytes.len() + 1;
        }
        Ok(())
    }
}

fn too_long(number: usize) -> ReadError
    ensures { result ≡ Failed (too_long number) }
{
    ReadError::Fault(Fault {
        problem: Problem::LongText,
        text: number,
        line: 1,
        column: 1,
    })
}

// Both texts, into a draft.
fn read_both(heap: Global, texts: Texts<'_>) -> Result<Draft, ReadError>
    ensures { BothRead result (sheets_read texts.entry.chip.now texts.entry.project.now) }
{
    if texts.chip.len() > LONGEST {
        return Err(too_long(0));
    }
    if texts.project.len() > LONGEST {
        return Err(too_long(1));
    }
    let mut reading = Reading {
        texts,
        draft: Draft::new(heap),
        found: None,
    };
    reading.read_text(heap, 0, texts.chip)?;
    reading.read_text(heap, 1, texts.project)?;
    Ok(reading.draft)
}

/// Reads a chip text and a project text into the plan, whatever it held before. On a fault, and for want of memory, the
/// plan is empty.
pub fn read<'a>(heap: Global, plan: &mut Plan, texts: Texts<'a>) -> Result<(), ReadError>
    ensures tells { Reads result (sheets_read texts.entry.chip.now texts.entry.project.now) (planned plan.new) }
    ensures same { Solved result (texts_of texts.entry) (trees_of texts.entry.chip.now texts.entry.project.now) (planned plan.new) }
{
    match read_both(heap, texts) {
        Ok(draft) => {
            // It is never refused: a draft is read only as far as a plan may hold it.
            let _ = plan.fill(draft);
            Ok(())
        }
        Err(error) => {
            plan.clear();
            Err(error)
        }
    }
}
