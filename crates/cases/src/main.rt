// Reads the two sheets of each case of a table, and prints what they are read to.
//
// A line of the table is NAME|SHOWN|CHIP|PROJECT. SHOWN is `whole` where the whole plan is printed, and `first` where
// its first line does. In a text `\n`, `\r`, `\t`, `\s` and `\xHH` stand for bytes, `\` and another byte for that one,
// and `&` joins pieces; `@N TEXT` is N copies of TEXT, in which each `#` is the number of the copy, from 0. A line that
// begins with `#` is a comment. One plan serves all cases, so that each is read over what the one before it left.
#![tactic(auto)]

mod make;

use faults::Fault;
use plain::{PlainCounts, PlainFault, PlainPlan};
use plan::plan::Plan;
use plan::texts::Texts;
use sheet::sheets::{ReadError, read};
use std::io;
use std::io::{BufRead, BufReader};

// How much of a plan a case prints.
#[derive(Clone, Copy)]
enum Extent {
    Whole,
    First,
}

// Prints a plan, whole or its first line.
fn print_plan(rt: &HostRuntime, extent: Extent, shown: PlainPlan<'_>) -> io::Result<()> {
    match extent {
        Extent::Whole => rt.print(shown),
        Extent::First => rt.println(PlainCounts(shown.plan)),
    }
}

// Prints a fault, after which the plan has to be empty.
fn print_fault(rt: &HostRuntime, fault: Fault, plan: &Plan) -> io::Result<()> {
    let shown = PlainFault(fault);
    if plan.cells().is_empty() && plan.premises().is_empty() && plan.constraints().is_empty() {
        return println!(rt; "{shown}");
    }
    println!(rt; "{shown} with a plan that is not empty")
}

// Reads two texts, and prints what came.
fn print_read(
    rt: &HostRuntime,
    plan: &mut Plan,
    extent: Extent,
    texts: Texts<'_>,
) -> io::Result<()> {
    match read(rt.alloc(), plan, texts) {
        Ok(()) => print_plan(rt, extent, PlainPlan { plan, texts }),
        Err(ReadError::Memory) => rt.println("want of memory"),
        Err(ReadError::Fault(fault)) => print_fault(rt, fault, plan),
    }
}

// One line of the table.
fn run_line(rt: &HostRuntime, plan: &mut Plan, line: &str) -> io::Result<()> {
    if line.starts_with('#') {
        return Ok(());
    }
    let heap = rt.alloc();
    let fields: Vec<&str> = line.split('|').collect(heap)?;
    let [name, shown, chip, project] = fields.as_slice() else {
        return rt.println("a line of the table that is not NAME|SHOWN|CHIP|PROJECT");
    };
    let chip = make::text(heap, chip.as_bytes())?;
    let project = make::text(heap, project.as_bytes())?;
    let texts = Texts {
        chip: chip.as_slice(),
        project: project.as_slice(),
    };
    let extent = match *shown {
        "whole" => Extent::Whole,
        _ => Extent::First,
    };
    print!(rt; "{name}: ")?;
    print_read(rt, plan, extent, texts)
}

fn main(rt: HostRuntime) -> io::Result<()> {
    let mut plan = Plan::new(rt.alloc());
    for line in BufReader::new(rt.alloc(), rt.stdin())?.lines(rt.alloc()) {
        run_line(&rt, &mut plan, line?.as_str())?;
    }
    Ok(())
}
