// The three orders at work: what comes out after the same numbers went in.
use super::Agenda;
use super::drain::drain;
use super::lowest::Lowest;
use super::queue::Queue;
use super::stack::Stack;

// Puts 7, 3, 7 again, 511, and 512, which does not count; takes two, and answers them.
fn two_of<A: Agenda>(agenda: &mut A) -> (Option<usize>, Option<usize>) {
    agenda.put(7);
    agenda.put(3);
    agenda.put(7);
    agenda.put(511);
    agenda.put(512);
    (agenda.take(), agenda.take())
}

#[test]
fn queue_takes_the_oldest(rt: HostRuntime) {
    let mut queue = Queue::new();
    assert_eq!(rt; two_of(&mut queue), (Some(7), Some(3)));
    assert_eq!(rt; drain(&mut queue), 1);
    assert!(rt; !queue.any());
}

#[test]
fn stack_takes_the_newest(rt: HostRuntime) {
    let mut stack = Stack::new();
    assert_eq!(rt; two_of(&mut stack), (Some(511), Some(3)));
    assert_eq!(rt; drain(&mut stack), 1);
    assert!(rt; !stack.any());
}

#[test]
fn lowest_takes_the_least(rt: HostRuntime) {
    let mut lowest = Lowest::new();
    assert_eq!(rt; two_of(&mut lowest), (Some(3), Some(7)));
    lowest.empty();
    assert_eq!(rt; lowest.take(), None);
}
