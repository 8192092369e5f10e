// The worked examples, run at Span alone and at the full kind.
use cells::cell::Cell;
use cells::fire::fire;
use facts::kind::Kind;
use facts::tidy::{highest, lowest};
use kinds::full::Full;
use kinds::span::Span;
use plan::constraint::{Constraint, Form};
use statements::numbers::TOP;
use statements::residue::Residue;
use statements::statement::Statement;
use std::process::Abort;
use std::test::Fail;

fn unowned(form: Form) -> Constraint {
    Constraint { owner: None, form }
}

// Fires a form that can be fired.
fn fires<K: Kind>(rt: &impl Abort, table: &mut [Cell<K>], form: Form) {
    assert!(rt; fire(table, unowned(form)).is_some());
}

// Tells cell x that it lies from lo to hi.
fn lay<K: Kind>(rt: &impl Abort, table: &mut [Cell<K>], x: usize, lo: i64, hi: i64) {
    fires(rt, table, Form::State(x, Statement::Between(lo, hi)));
}

// Cell x reaches from lo to hi.
fn spans<K: Kind>(
    rt: &impl Abort,
    table: &[Cell<K>],
    x: usize,
    lo: i64,
    hi: i64,
) -> Result<(), Fail> {
    let cell = table.get(x).ok_or("no such cell")?;
    assert_eq!(rt; lowest(cell.fact), lo);
    assert_eq!(rt; highest(cell.fact), hi);
    Ok(())
}

// Whether cell x is in conflict.
fn conflict<K: Kind>(table: &[Cell<K>], x: usize) -> bool {
    table.get(x).is_some_and(|c| c.in_conflict())
}

fn a_sum_narrows<K: Kind>(rt: &impl Abort, table: &mut [Cell<K>]) -> Result<(), Fail> {
    lay(rt, table, 0, 2, 3);
    lay(rt, table, 1, 10, 20);
    lay(rt, table, 2, 0, 15);
    let changed = fire(table, unowned(Form::Sum(0, 1, 2))).ok_or("not fired")?;
    assert_eq!(rt; changed.at(0), Some(2));
    assert_eq!(rt; changed.at(1), Some(1));
    assert_eq!(rt; changed.at(2), None);
    spans(rt, table, 0, 2, 3)?;
    spans(rt, table, 1, 10, 13)?;
    spans(rt, table, 2, 12, 15)
}

fn an_apart_settles<K: Kind>(rt: &impl Abort, table: &mut [Cell<K>]) -> Result<(), Fail> {
    lay(rt, table, 0, 0, 10);
    lay(rt, table, 1, 2, 3);
    fires(rt, table, Form::Apart(0, 4, 1, 8));
    spans(rt, table, 0, 10, 10)?;
    spans(rt, table, 1, 2, 2)
}

// The first firing leaves cell 2 in conflict, and the second tells every cell that no number is allowed.
fn a_sum_past_the_top<K: Kind>(rt: &impl Abort, table: &mut [Cell<K>]) {
    lay(rt, table, 0, TOP, TOP);
    lay(rt, table, 1, 1, 1);
    fires(rt, table, Form::Sum(0, 1, 2));
    assert!(rt; conflict(table, 2));
    assert!(rt; !conflict(table, 0));
    fires(rt, table, Form::Sum(0, 1, 2));
    assert!(rt; conflict(table, 0));
    assert!(rt; conflict(table, 1));
}

fn what_cannot_be_fired<K: Kind>(rt: &impl Abort, table: &mut [Cell<K>]) -> Result<(), Fail> {
    lay(rt, table, 0, 0, 10);
    assert!(rt; fire(table, unowned(Form::Gap(0, 1, 3))).is_none());
    assert!(rt; fire(table, unowned(Form::Gap(0, TOP + 1, 1))).is_none());
    spans(rt, table, 0, 0, 10)
}

// Nothing is known yet of any cell.
fn begin<K: Kind>(table: &mut [Cell<K>]) {
    for cell in table.iter_mut() {
        *cell = Cell::start();
    }
}

fn all_four<K: Kind>(rt: &impl Abort, table: &mut [Cell<K>]) -> Result<(), Fail> {
    begin(table);
    a_sum_narrows(rt, table)?;
    begin(table);
    an_apart_settles(rt, table)?;
    begin(table);
    a_sum_past_the_top(rt, table);
    begin(table);
    what_cannot_be_fired(rt, table)
}

#[test]
fn at_span(rt: HostRuntime) -> Result<(), Fail> {
    all_four(&rt, &mut [Cell::<Span>::start(); 3])
}

#[test]
fn at_full(rt: HostRuntime) -> Result<(), Fail> {
    all_four(&rt, &mut [Cell::<Full>::start(); 3])
}

// Multiples of 4 from 5 to 9. At the full kind the first tell leaves 8 alone; at Span it says nothing new, and the second
// cuts to the first and the last of them.
#[test]
fn a_statement(rt: HostRuntime) -> Result<(), Fail> {
    let fours = Statement::Aligned(Residue { k: 2, r: 0 });
    let mut full = [Cell::<Full>::start(); 3];
    lay(&rt, &mut full, 0, 5, 9);
    fires(&rt, &mut full, Form::State(0, fours));
    spans(&rt, &full, 0, 8, 8)?;
    let mut span = [Cell::<Span>::start(); 3];
    lay(&rt, &mut span, 0, 5, 9);
    fires(&rt, &mut span, Form::State(0, fours));
    spans(&rt, &span, 0, 8, 8)
}
