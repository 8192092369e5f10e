// Plans and faults as other programs read them, byte for byte.
#![tactic(auto)]

ghost use Rattle.std.specs.Prelude.{◌≡◌, Some};
ghost use Rattle.plan.specs.Items.{planned};
ghost use Rattle.plain.specs.Lines.{owner_word, statement_words, form_words, constraint_line, fault_line, counts_line};

use faults::Fault;
use plan::constraint::{Constraint, Form};
use plan::names::Declared;
use plan::plan::Plan;
use plan::texts::Texts;
use statements::statement::Statement;
use std::fmt;

/// A plan with the two texts that it was read from: its counts, then a line for each cell, premise and constraint.
#[derive(Clone, Copy)]
pub struct PlainPlan<'a> {
    pub plan: &'a Plan,
    pub texts: Texts<'a>,
}

/// How many cells, constraints and premises a plan has: its first line, without the end of the line.
#[derive(Clone, Copy)]
pub struct PlainCounts<'a>(pub &'a Plan);

/// A fault's number, layer, text, line and column, without the end of the line.
#[derive(Clone, Copy)]
pub struct PlainFault(pub Fault);

// A name, or `-` where there is none. The bytes of a name are ASCII; bytes that are no text at all show as `?`.
#[derive(Clone, Copy)]
struct Name<'a>(Option<&'a [u8]>);

// A constraint and its number: its line, without the end of the line.
#[derive(Clone, Copy)]
struct PlainConstraint(usize, Constraint);

// What a constraint asks, over cells by their numbers.
#[derive(Clone, Copy)]
struct PlainForm(Form);

// What a statement allows, after the cell that it is about.
#[derive(Clone, Copy)]
struct PlainStatement(Statement);

// The number of the premise that owns a constraint, or `-`.
#[derive(Clone, Copy)]
struct PlainOwner(Option<usize>);

impl fmt::Display for Name<'_> {
    fn fmt<W: fmt::Write>(&self, f: &mut fmt::Formatter<W>) -> fmt::Result {
        f.write_str(match self.0 {
            None => "-",
            Some(bytes) => std::str::from_utf8(bytes).unwrap_or("?"),
        })
    }
}

impl fmt::Display for PlainOwner {
    ghost output = { λ x. Some (owner_word x.0) };

    fn fmt<W: fmt::Write>(&self, f: &mut fmt::Formatter<W>) -> fmt::Result {
        match self.0 {
            None => f.write_str("-"),
            Some(premise) => write!(f, "{premise}"),
        }
    }
}

impl fmt::Display for PlainStatement {
    ghost output = { λ x. Some (statement_words x.0) };

    fn fmt<W: fmt::Write>(&self, f: &mut fmt::Formatter<W>) -> fmt::Result {
        match self.0 {
            Statement::Between(lo, hi) => write!(f, "in {lo} {hi}"),
            Statement::Aligned(rest) => {
                let k = rest.k;
                let r = rest.r;
                write!(f, "align {k} {r}")
            }
        }
    }
}

impl fmt::Display for PlainForm {
    ghost output = { λ x. Some (form_words x.0) };

    fn fmt<W: fmt::Write>(&self, f: &mut fmt::Formatter<W>) -> fmt::Result {
        match self.0 {
            Form::State(c, statement) => {
                let allowed = PlainStatement(statement);
                write!(f, "state {c} {allowed}")
            }
            Form::Sum(a, b, c) => write!(f, "sum {a} {b} {c}"),
            Form::Gap(a, d, b) => write!(f, "gap {a} {d} {b}"),
            Form::Apart(a, d, b, e) => write!(f, "apart {a} {d} {b} {e}"),
        }
    }
}

impl fmt::Display for PlainConstraint {
    ghost output = { λ x. Some (constraint_line x.0 x.1) };

    fn fmt<W: fmt::Write>(&self, f: &mut fmt::Formatter<W>) -> fmt::Result {
        let i = self.0;
        let owner = PlainOwner(self.1.owner);
        let form = PlainForm(self.1.form);
        write!(f, "constraint {i} {owner} {form}")
    }
}

impl fmt::Display for PlainCounts<'_> {
    ghost output = { λ x. Some (counts_line (planned x.0.now)) };

    fn fmt<W: fmt::Write>(&self, f: &mut fmt::Formatter<W>) -> fmt::Result {
        let cells = self.0.cell_count();
        let constraints = self.0.constraint_count();
        let premises = self.0.premise_count();
        write!(f, "plan {cells} {constraints} {premises}")
    }
}

// The lines of the cells, or of the premises: `word`, the number from 0 on, and the name.
fn names<D: Declared, W: fmt::Write>(
    word: &str,
    all: &[D],
    texts: Texts<'_>,
    f: &mut fmt::Formatter<W>,
) -> fmt::Result {
    for (i, declared) in all.iter().enumerate() {
        let name = Name(texts.name(*declared));
        writeln!(f, "{word} {i} {name}")?;
    }
    Ok(())
}

// The lines of the constraints, from 0 on.
fn constraints<W: fmt::Write>(all: &[Constraint], f: &mut fmt::Formatter<W>) -> fmt::Result {
    for (i, constraint) in all.iter().enumerate() {
        let line = PlainConstraint(i, *constraint);
        writeln!(f, "{line}")?;
    }
    Ok(())
}

impl fmt::Display for PlainPlan<'_> {
    fn fmt<W: fmt::Write>(&self, f: &mut fmt::Formatter<W>) -> fmt::Result {
        let counts = PlainCounts(self.plan);
        writeln!(f, "{counts}")?;
        names("cell", self.plan.cells(), self.texts, f)?;
        names("premise", self.plan.premises(), self.texts, f)?;
        constraints(self.plan.constraints(), f)
    }
}

impl fmt::Display for PlainFault {
    ghost output = { λ x. Some (fault_line x.0) };

    fn fmt<W: fmt::Write>(&self, f: &mut fmt::Formatter<W>) -> fmt::Result {
        let number = self.0.problem.number();
        let layer = self.0.problem.layer();
        let text = self.0.text;
        let line = self.0.line;
        let column = self.0.column;
        write!(f, "fault {number} {layer} {text} {line} {column}")
    }
}
