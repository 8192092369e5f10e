// Checks two sheets: prints the plan that they are read to, or their fault.
#![tactic(auto)]

mod args;
mod expect;
mod explain;
mod known;
mod show;
mod source;

use args::{Asked, Files, Readers, USAGE, asked_by};
use faults::Problem;
use known::Faulty;
use plain::{PlainFault, PlainPlan};
use plan::plan::Plan;
use plan::texts::Texts;
use sheet::sheets::{ReadError, read};
use show::ShownPlan;
use source::{Pointed, Sheet, Sheets, line_of};
use std::alloc::AllocError;
use std::process::ExitCode;
use std::{env, fs, io};

// Why the program ends with status 1: something that was told, something that went wrong outside, or want of memory.
#[derive(Drop)]
enum Failure {
    Told,
    Outside(io::Error),
    Memory,
}

impl From<io::Error> for Failure {
    fn from(error: io::Error) -> Failure {
        Failure::Outside(error)
    }
}

impl From<AllocError> for Failure {
    fn from(_error: AllocError) -> Failure {
        Failure::Memory
    }
}

// The words of the command line after the program's own name.
fn words(rt: &HostRuntime) -> Result<Vec<String>, Failure> {
    Ok(env::args(rt)?.skip(1).collect(rt.alloc())?)
}

// The bytes of a file.
fn bytes_of(rt: &HostRuntime, file: &str) -> Result<Vec<u8>, Failure> {
    match fs::read(rt, file) {
        Ok(bytes) => Ok(bytes),
        Err(error) => {
            eprintln!(rt; "placer: cannot read {file}: {error}")?;
            Err(Failure::Told)
        }
    }
}

// Prints a plan, for programs or for people.
fn print_plan<'a>(
    rt: &HostRuntime,
    readers: Readers,
    plan: &'a Plan,
    texts: Texts<'a>,
) -> io::Result<()> {
    match readers {
        Readers::Programs => rt.print(PlainPlan { plan, texts }),
        Readers::People => rt.print(ShownPlan { plan, texts }),
    }
}

// A fault for people: its place and what is wrong, and the line with a caret at the place.
fn tell_fault(rt: &HostRuntime, faulty: Faulty<'_>) -> Result<(), Failure> {
    let fault = faulty.fault;
    let sheet = faulty.sheets.sheet(fault.text);
    let words = faulty.explained()?;
    let file = sheet.file;
    let line = fault.line;
    let column = fault.column;
    let number = fault.problem.number();
    eprintln!(rt; "{file}:{line}:{column}: error {number}: {words}")?;
    if fault.problem != Problem::LongText {
        let line = line_of(sheet.text, line);
        rt.eprint(Pointed { line, column })?;
    }
    Ok(())
}

// Tells a fault, and fails.
fn tell(rt: &HostRuntime, readers: Readers, faulty: Faulty<'_>) -> Result<(), Failure> {
    match readers {
        Readers::Programs => rt.println(PlainFault(faulty.fault))?,
        Readers::People => tell_fault(rt, faulty)?,
    }
    Err(Failure::Told)
}

// Reads two sheets, and prints the plan or the fault.
fn check(rt: &HostRuntime, files: Files<'_>) -> Result<(), Failure> {
    let chip = bytes_of(rt, files.chip)?;
    let project = bytes_of(rt, files.project)?;
    let sheets = Sheets {
        chip: Sheet {
            file: files.chip,
            text: chip.as_slice(),
        },
        project: Sheet {
            file: files.project,
            text: project.as_slice(),
        },
    };
    let texts = sheets.texts();
    let heap = rt.alloc();
    let mut plan = Plan::new(heap);
    match read(heap, &mut plan, texts) {
        Ok(()) => Ok(print_plan(rt, files.readers, &plan, texts)?),
        Err(ReadError::Memory) => Err(Failure::Memory),
        Err(ReadError::Fault(fault)) => tell(
            rt,
            files.readers,
            Faulty {
                heap,
                sheets,
                fault,
            },
        ),
    }
}

fn run(rt: &HostRuntime) -> Result<(), Failure> {
    let words = words(rt)?;
    match asked_by(words.as_slice()) {
        Ok(Asked::Check(files)) => check(rt, files),
        Ok(Asked::Help) => Ok(rt.println(USAGE)?),
        Err(misuse) => {
            eprintln!(rt; "placer: {misuse}; {USAGE}")?;
            Err(Failure::Told)
        }
    }
}

fn main(rt: HostRuntime) -> ExitCode {
    match run(&rt) {
        Ok(()) => return ExitCode::SUCCESS,
        Err(Failure::Outside(error)) => {
            let _ = eprintln!(rt; "placer: {error}");
        }
        Err(Failure::Memory) => {
            let _ = rt.eprintln("placer: there is not enough memory");
        }
        Err(Failure::Told) => {}
    }
    ExitCode::FAILURE
}
