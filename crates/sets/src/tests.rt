// The sets at work on a few members each, the greatest number and the first one too many among them.
use super::small::Set32;
use super::wide::Set512;

#[test]
fn small_members(rt: HostRuntime) {
    let odd = Set32::none().insert(1).insert(31).insert(32);
    assert_eq!(rt; odd.count(), 2);
    assert_eq!(rt; odd.lowest(), Some(1));
    assert_eq!(rt; odd.highest(), Some(31));
    assert!(rt; !odd.has(32));
    let even = Set32::none().insert(2);
    assert!(rt; odd.is_within(odd.union(even)));
    assert!(rt; !odd.is_within(even));
    assert!(rt; odd.union(even).without(even).equals(odd));
    assert!(rt; even.remove(2).is_empty());
}

#[test]
fn wide_members(rt: HostRuntime) {
    let mut waiting = Set512::none();
    waiting.insert(511);
    waiting.insert(64);
    waiting.insert(512);
    assert_eq!(rt; waiting.lowest(), Some(64));
    waiting.remove(64);
    assert!(rt; waiting.has(511) && !waiting.has(512));
    waiting.remove(511);
    assert!(rt; waiting.is_empty());
}
