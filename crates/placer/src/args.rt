// What the program is asked to do, by the words of its command line.
use std::fmt;

/// How the program is called.
pub const USAGE: &str = "usage: placer check [--plain] CHIP PROJECT";

/// What is asked: a check of two sheets, or how the program is called.
#[derive(Clone, Copy)]
pub enum Asked<'a> {
    Check(Files<'a>),
    Help,
}

/// Whom an answer is for: people, or other programs.
#[derive(Clone, Copy, Debug, PartialEq, Eq)]
pub enum Readers {
    People,
    Programs,
}

/// The two sheets of a check, and whom its answer is for.
#[derive(Clone, Copy)]
pub struct Files<'a> {
    pub chip: &'a str,
    pub project: &'a str,
    pub readers: Readers,
}

/// Why a command line asks nothing.
#[derive(Clone, Copy)]
pub enum Misuse<'a> {
    NoCommand,
    Command(&'a str),
    Option(&'a str),
    NoChip,
    NoProject,
    Extra(&'a str),
}

impl fmt::Display for Misuse<'_> {
    fn fmt<W: fmt::Write>(&self, f: &mut fmt::Formatter<W>) -> fmt::Result {
        match *self {
            Misuse::NoCommand => f.write_str("there is no command"),
            Misuse::Command(word) => write!(f, "there is no command `{word}`"),
            Misuse::Option(word) => write!(f, "there is no option `{word}`"),
            Misuse::NoChip => f.write_str("the chip sheet and the project sheet are not named"),
            Misuse::NoProject => f.write_str("the project sheet is not named"),
            Misuse::Extra(word) => write!(f, "`{word}` is one file too many"),
        }
    }
}

// The words after `check`.
fn check<'a>(words: &'a [String]) -> Result<Asked<'a>, Misuse<'a>> {
    let mut readers = Readers::People;
    let mut chip = None;
    let mut project = None;
    for word in words {
        match (word.as_str(), chip, project) {
            ("--plain", _, _) => readers = Readers::Programs,
            (word, _, _) if word.starts_with("--") => return Err(Misuse::Option(word)),
            (word, None, _) => chip = Some(word),
            (word, _, None) => project = Some(word),
            (word, _, _) => return Err(Misuse::Extra(word)),
        }
    }
    Ok(Asked::Check(Files {
        chip: chip.ok_or(Misuse::NoChip)?,
        project: project.ok_or(Misuse::NoProject)?,
        readers,
    }))
}

/// What the words after the program's own name ask.
pub(crate) fn asked_by<'a>(words: &'a [String]) -> Result<Asked<'a>, Misuse<'a>> {
    let (command, rest) = words.split_first().ok_or(Misuse::NoCommand)?;
    match command.as_str() {
        "check" => check(rest),
        "--help" => Ok(Asked::Help),
        command => Err(Misuse::Command(command)),
    }
}
