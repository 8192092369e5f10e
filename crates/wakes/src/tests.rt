// An index at work: what waits once a change of a cell, of a premise or of all premises wakes it.
use crate::index::Index;
use agenda::Agenda;
use agenda::drain::drain;
use agenda::lowest::Lowest;
use plan::constraint::{Constraint, Form};
use plan::draft::Draft;
use plan::place::Place;
use plan::plan::Plan;
use sets::small::Set32;
use std::alloc::{AllocError, Global};

// Three cells and one premise; constraint 0 is owned by nobody, constraint 1 by premise 0.
fn index_of_two(heap: Global) -> Result<Index, AllocError> {
    let place = Place {
        text: 0,
        start: 0,
        len: 0,
    };
    let mut draft = Draft::new(heap);
    for _ in 0..3 {
        draft.cells.push(None)?;
    }
    draft.premises.push(place)?;
    draft.constraints.push(Constraint {
        owner: None,
        form: Form::Sum(0, 1, 2),
    })?;
    draft.constraints.push(Constraint {
        owner: Some(0),
        form: Form::Gap(2, 5, 0),
    })?;
    let mut plan = Plan::new(heap);
    let _ = plan.fill(draft);
    Index::new(heap, &plan)
}

#[test]
fn a_change_wakes_what_it_concerns(rt: HostRuntime) -> Result<(), AllocError> {
    let index = index_of_two(rt.alloc())?;
    assert_eq!(rt; index.cell_count(), 3);
    assert_eq!(rt; index.part(1), [0].as_slice());
    assert_eq!(rt; index.part(2), [0, 1].as_slice());
    assert_eq!(rt; index.part(3).len(), 0);
    let force = Set32::none().insert(0);
    let mut agenda = Lowest::new();
    index.wake(2, Set32::none(), &mut agenda);
    assert_eq!(rt; agenda.take(), Some(0));
    assert_eq!(rt; agenda.take(), None);
    index.wake(2, force, &mut agenda);
    assert_eq!(rt; drain(&mut agenda), 2);
    index.wake_owned(0, &mut agenda);
    assert_eq!(rt; agenda.take(), Some(1));
    assert_eq!(rt; agenda.take(), None);
    index.wake_standing(force, &mut agenda);
    assert_eq!(rt; drain(&mut agenda), 2);
    Ok(())
}
