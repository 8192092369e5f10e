// Vectors that pin reasons.
use cells::cell::Cell;
use cells::fire::fire;
use facts::kind::Kind;
use kinds::span::Span;
use plan::constraint::{Constraint, Form};
use statements::numbers::TOP;
use statements::statement::Statement;
use std::process::Abort;
use std::test::Fail;

// The premises of the cell are those of the three that are said to be, and it has no guess.
fn premises<K: Kind>(rt: &impl Abort, c: Cell<K>, zero: bool, one: bool, two: bool) {
    assert_eq!(rt; c.reasons.premises.has(0), zero);
    assert_eq!(rt; c.reasons.premises.has(1), one);
    assert_eq!(rt; c.reasons.premises.has(2), two);
    assert!(rt; c.reasons.guesses.is_empty());
}

fn line(owner: usize, form: Form) -> Constraint {
    Constraint {
        owner: Some(owner),
        form,
    }
}

// The line of premise `owner` that cell x lies from lo to hi, fired.
fn lay(rt: &impl Abort, table: &mut [Cell<Span>], owner: usize, x: usize, lo: i64, hi: i64) {
    let form = Form::State(x, Statement::Between(lo, hi));
    assert!(rt; fire(table, line(owner, form)).is_some());
}

// Two lines on one cell where the later says everything: its reasons alone remain.
#[test]
fn the_later_says_everything(rt: HostRuntime) {
    let mut table = [Cell::<Span>::start()];
    lay(&rt, &mut table, 0, 0, 0, 10);
    premises(&rt, table[0], true, false, false);
    lay(&rt, &mut table, 1, 0, 3, 5);
    premises(&rt, table[0], false, true, false);
}

// Where the later line adds to the earlier, both remain; one that adds nothing leaves no trace.
#[test]
fn the_later_adds(rt: HostRuntime) {
    let mut table = [Cell::<Span>::start()];
    lay(&rt, &mut table, 0, 0, 0, 10);
    lay(&rt, &mut table, 1, 0, 4, 20);
    premises(&rt, table[0], true, true, false);
    lay(&rt, &mut table, 2, 0, 0, 20);
    premises(&rt, table[0], true, true, false);
}

// An apart whose tell says everything of cell 0: the condition read that cell too, so its premise is among the reasons.
#[test]
fn a_condition_counts(rt: HostRuntime) -> Result<(), Fail> {
    let mut table = [Cell::<Span>::start(); 2];
    lay(&rt, &mut table, 0, 0, 0, TOP);
    lay(&rt, &mut table, 1, 1, 2, 3);
    let changed = fire(&mut table, line(2, Form::Apart(0, 4, 1, 8))).ok_or("not fired")?;
    assert_eq!(rt; changed.at(0), Some(0));
    assert_eq!(rt; changed.at(1), None);
    premises(&rt, table[0], true, true, true);
    premises(&rt, table[1], false, true, false);
    Ok(())
}
