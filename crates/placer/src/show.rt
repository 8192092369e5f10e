// A plan as people read it: cells and premises by name, constraints as formulas with their premise in front.
use plan::constraint::Form;
use plan::names::Declared;
use plan::plan::Plan;
use plan::texts::Texts;
use statements::statement::Statement;
use std::fmt;

// PlainPlan of plain has the same two fields: each type stands for one way to print, as a type has one Display, and a type
// between them and the fields would say no more.
/// A plan with the two texts that it was read from.
#[derive(Clone, Copy)]
pub struct ShownPlan<'a> {
    pub plan: &'a Plan,
    pub texts: Texts<'a>,
}

// A cell by its name, or a helper by its number in parentheses.
#[derive(Clone, Copy)]
struct Cell<'a>(ShownPlan<'a>, usize);

// A premise by its name, and a colon; nothing where a constraint has none.
#[derive(Clone, Copy)]
struct Owner<'a>(ShownPlan<'a>, Option<usize>);

// What a statement says of a cell, after the cell.
#[derive(Clone, Copy)]
struct Said(Statement);

// What a constraint asks of its cells.
#[derive(Clone, Copy)]
struct Asks<'a>(ShownPlan<'a>, Form);

fn text_of(bytes: &[u8]) -> &str {
    std::str::from_utf8(bytes).unwrap_or("?")
}

impl<'a> ShownPlan<'a> {
    // The name of a cell, absent for a helper.
    fn cell(self, i: usize) -> Option<&'a str> {
        self.plan.name(i, self.texts).ok().flatten().map(text_of)
    }

    // The name of a premise.
    fn premise(self, i: usize) -> &'a str {
        self.plan
            .premise_name(i, self.texts)
            .ok()
            .flatten()
            .map_or("?", text_of)
    }
}

impl fmt::Display for Cell<'_> {
    fn fmt<W: fmt::Write>(&self, f: &mut fmt::Formatter<W>) -> fmt::Result {
        let i = self.1;
        match self.0.cell(i) {
            Some(name) => f.write_str(name),
            None => write!(f, "({i})"),
        }
    }
}

impl fmt::Display for Owner<'_> {
    fn fmt<W: fmt::Write>(&self, f: &mut fmt::Formatter<W>) -> fmt::Result {
        match self.1 {
            Some(premise) => {
                let name = self.0.premise(premise);
                write!(f, "{name}: ")
            }
            None => Ok(()),
        }
    }
}

impl fmt::Display for Said {
    fn fmt<W: fmt::Write>(&self, f: &mut fmt::Formatter<W>) -> fmt::Result {
        match self.0 {
            Statement::Between(lo, hi) => {
                if lo == hi {
                    write!(f, "is {lo}")
                } else {
                    write!(f, "is from {lo} to {hi}")
                }
            }
            Statement::Aligned(rest) => {
                let step = 1u32 << rest.k;
                let r = rest.r;
                if r == 0 {
                    write!(f, "is a multiple of {step}")
                } else {
                    write!(f, "is a multiple of {step} and {r} more")
                }
            }
        }
    }
}

impl fmt::Display for Asks<'_> {
    fn fmt<W: fmt::Write>(&self, f: &mut fmt::Formatter<W>) -> fmt::Result {
        let shown = self.0;
        match self.1 {
            Form::State(c, statement) => {
                let c = Cell(shown, c);
                let said = Said(statement);
                write!(f, "{c} {said}")
            }
            Form::Sum(a, b, c) => {
                let a = Cell(shown, a);
                let b = Cell(shown, b);
                let c = Cell(shown, c);
                write!(f, "{c} is {a} + {b}")
            }
            Form::Gap(a, d, b) => {
                let a = Cell(shown, a);
                let b = Cell(shown, b);
                if d == 0 {
                    write!(f, "{a} <= {b}")
                } else {
                    write!(f, "{a} + {d} <= {b}")
                }
            }
            Form::Apart(a, d, b, e) => {
                let a = Cell(shown, a);
                let b = Cell(shown, b);
                write!(f, "{a} + {d} <= {b} or {b} + {e} <= {a}")
            }
        }
    }
}

// The lines of the cells or of the premises, from 0 on: the number and the name, where there is one.
fn names<D: Declared, W: fmt::Write>(
    all: &[D],
    texts: Texts<'_>,
    f: &mut fmt::Formatter<W>,
) -> fmt::Result {
    for (i, declared) in all.iter().enumerate() {
        if let Some(bytes) = texts.name(*declared) {
            let name = text_of(bytes);
            writeln!(f, "{i:>5}  {name}")?;
        }
    }
    Ok(())
}

// The cells that are declared; a helper shows where a constraint names it.
fn cells<W: fmt::Write>(shown: ShownPlan<'_>, f: &mut fmt::Formatter<W>) -> fmt::Result {
    let cells = shown.plan.cells();
    let count = cells.len();
    let helpers = cells.iter().filter(|cell| cell.is_none()).count();
    writeln!(f, "cells: {count}, of which {helpers} are helpers")?;
    names(cells, shown.texts, f)
}

fn premises<W: fmt::Write>(shown: ShownPlan<'_>, f: &mut fmt::Formatter<W>) -> fmt::Result {
    let premises = shown.plan.premises();
    let count = premises.len();
    writeln!(f, "premises: {count}")?;
    names(premises, shown.texts, f)
}

fn constraints<W: fmt::Write>(shown: ShownPlan<'_>, f: &mut fmt::Formatter<W>) -> fmt::Result {
    let constraints = shown.plan.constraints();
    let count = constraints.len();
    writeln!(f, "constraints: {count}")?;
    for (i, constraint) in constraints.iter().enumerate() {
        let owner = Owner(shown, constraint.owner);
        let asks = Asks(shown, constraint.form);
        writeln!(f, "{i:>5}  {owner}{asks}")?;
    }
    Ok(())
}

impl fmt::Display for ShownPlan<'_> {
    fn fmt<W: fmt::Write>(&self, f: &mut fmt::Formatter<W>) -> fmt::Result {
        cells(*self, f)?;
        premises(*self, f)?;
        constraints(*self, f)
    }
}
