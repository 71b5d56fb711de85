//! Events of a sweep over a tree and over a list.

use i_tree::key::tree::KeyExpTree;
use std::test::Fail;
use test_kit::Refusing;
use uses::sweep_events::{Event, Level, Outcome, outcomes_by_list, outcomes_by_tree, serve};

const fn begin(place: i32, height: i32, end: i32, name: u32) -> (i32, Event) {
    let level = Level { height, end };
    (place, Event::Begin { level, name })
}

const fn ask(place: i32, height: i32) -> (i32, Event) {
    (place, Event::Ask { height })
}

#[test]
fn a_tree_and_a_list_answer_alike(rt: HostRuntime) -> Result<(), Fail> {
    let events = [
        begin(0, 3, 10, 1),
        begin(0, 5, 4, 2),
        begin(1, 5, 9, 3),
        ask(2, 6),
        ask(4, 6),
        ask(5, 6),
        begin(5, 5, 9, 4),
        ask(5, 5),
        ask(9, 9),
        ask(10, 9),
        ask(11, 9),
    ];
    let wanted = [
        Outcome::Began,
        Outcome::Began,
        Outcome::Taken,
        Outcome::Below(2),
        Outcome::Below(2),
        Outcome::Below(1),
        Outcome::Began,
        Outcome::Below(4),
        Outcome::Below(4),
        Outcome::Below(1),
        Outcome::Below(0),
    ];
    let by_tree = outcomes_by_tree(rt.alloc(), &events)?;
    assert!(rt; by_tree.as_slice() == wanted.as_slice());
    let by_list = outcomes_by_list(rt.alloc(), &events)?;
    assert!(rt; by_list.as_slice() == wanted.as_slice());
    Ok(())
}

#[test]
fn a_level_without_room_changes_nothing(rt: HostRuntime) -> Result<(), Fail> {
    let memory = Refusing::new(rt.alloc());
    let mut active = KeyExpTree::new(&memory, 0)?;
    memory.refuse_all();
    for height in 1..=8 {
        let (place, event) = begin(0, height, 10, 1);
        let wanted = if height < 8 {
            Outcome::Began
        } else {
            Outcome::NoRoom
        };
        assert!(rt; serve(&mut active, place, event) == wanted, "{height}");
    }
    assert!(rt; serve(&mut active, 0, Event::Ask { height: 9 }) == Outcome::Below(1));
    Ok(())
}
