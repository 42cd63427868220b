// Deaths between the steps of others. The store has the pair k, whose value is 3, 61 62 63. Opener 1 gets it and dies in a put of 1, 64,
// whose steps are a lock, two looks, the file's size, the places, two payload words, the header, the checksum, the record's size and an
// unlock. Then opener 2 gets k.
use crate::worlds::{finish, get, put, sizes, stored};
use change_log::{Answer, Call, Reply};
use expiring_map::Memory;
use meta_record::Shown;
use region_words::shown;
use std::alloc::Global;
use std::mem;
use world::{Moved, World};

// Whether an opener's call is begun.
fn begins(world: &mut World, who: u32, call: Result<Call, Memory>) -> bool {
    match call {
        Ok(call) => world.begin(who, call, 100).is_ok(),
        Err(_) => false,
    }
}

// Whether a whole call of an opener is answered.
fn answers(world: &mut World, who: u32, call: Result<Call, Memory>) -> bool {
    begins(world, who, call) && matches!(finish(world, who), Moved::Answered(_))
}

// Opener 1 makes so many steps of the put and dies. Whether it came to that.
fn dies_in_a_put(alloc: Global, world: &mut World, steps: u32, torn: Option<u32>) -> bool {
    if !answers(world, 1, get(alloc)) || !begins(world, 1, put(alloc, b"k", b"\x01d")) {
        return false;
    }
    for _ in 0..steps {
        world.step(1);
    }
    world.die(1, torn)
}

// What the region shows.
fn shows(world: &World) -> Option<Shown> {
    let region = world.region();
    let body = region.data_bytes();
    let meta = region.meta_bytes();
    if body.len() < 4 || meta.len() < 112 {
        return None;
    }
    shown(body, meta).ok()
}

// What a death leaves: what the region shows, and how many changes there are.
fn left_by_death(alloc: Global, steps: u32, torn: Option<u32>) -> Option<(Shown, usize)> {
    match stored(alloc, &[], 2) {
        Some(mut world) => {
            let is_dead = dies_in_a_put(alloc, &mut world, steps, torn);
            let shown = shows(&world);
            let sizes = sizes(alloc, &world);
            mem::drop(world);
            if is_dead {
                Some((shown?, sizes?.1))
            } else {
                None
            }
        }
        None => None,
    }
}

#[test]
fn before_its_marked_store_a_death_leaves_what_stood(rt: HostRuntime) {
    let stands = Some((Shown::Whole(11), 0));
    for steps in 0..9u32 {
        let left = left_by_death(rt.alloc(), steps, None);
        let torn = left_by_death(rt.alloc(), steps, Some(0xffff_ffff));
        assert_eq!(rt; left, stands, "{steps}");
        assert_eq!(rt; torn, stands, "{steps}");
    }
}

#[test]
fn from_its_marked_store_on_a_death_leaves_the_change(rt: HostRuntime) {
    for (steps, shown) in [
        (9u32, Shown::Header(16)),
        (10, Shown::Whole(16)),
        (11, Shown::Whole(16)),
    ] {
        let left = left_by_death(rt.alloc(), steps, None);
        let torn = left_by_death(rt.alloc(), steps, Some(0xffff_ffff));
        assert_eq!(rt; left, Some((shown, 1)), "{steps}");
        assert_eq!(rt; torn, Some((shown, 1)), "{steps}");
    }
}

#[derive(Clone, Copy, Debug, PartialEq, Eq)]
enum Value {
    Old,
    New,
}

// Which value of the two an answer has.
fn value_of(answer: &Answer) -> Option<Value> {
    match &answer.reply {
        Reply::Value(value) => match value.as_slice() {
            [3, b'a', b'b', b'c'] => Some(Value::Old),
            [1, b'd'] => Some(Value::New),
            _ => None,
        },
        _ => None,
    }
}

// Begin, place and end of an answer, and its loads, stores and locks.
type Counts = [u32; 6];

// Those of the last answer, where it is one of this opener.
fn last_counts(world: &World, who: u32) -> Option<Counts> {
    let answer = world.answers().last()?;
    if answer.who != who {
        return None;
    }
    Some([
        answer.begun,
        answer.place,
        answer.ended,
        answer.loads,
        answer.stores,
        answer.locks,
    ])
}

// What opener 2 gets.
fn value_of_another(alloc: Global, world: &mut World) -> Option<(Value, Counts)> {
    if !answers(world, 2, get(alloc)) {
        return None;
    }
    let counts = last_counts(world, 2)?;
    Some((value_of(world.answers().last()?)?, counts))
}

// What it gets after a death.
fn value_after(alloc: Global, steps: u32, torn: Option<u32>) -> Option<(Value, Counts)> {
    match stored(alloc, &[], 2) {
        Some(mut world) => {
            let is_dead = dies_in_a_put(alloc, &mut world, steps, torn);
            let value = value_of_another(alloc, &mut world);
            mem::drop(world);
            if is_dead { value } else { None }
        }
        None => None,
    }
}

#[test]
fn before_the_marked_store_of_a_dead_one_another_gets_the_old_value(rt: HostRuntime) {
    let old = Some((Value::Old, [0, 0, 0, 13, 0, 1]));
    for steps in 0..9u32 {
        let value = value_after(rt.alloc(), steps, None);
        let torn = value_after(rt.alloc(), steps, Some(0xffff_ffff));
        assert_eq!(rt; value, old, "{steps}");
        assert_eq!(rt; torn, old, "{steps}");
    }
}

// (A death between the marked store and that of the record's size leaves a region that is repaired first.)
#[test]
fn after_the_last_store_of_a_dead_one_another_gets_the_new_value(rt: HostRuntime) {
    let new = Some((Value::New, [1, 1, 1, 14, 0, 1]));
    for steps in [10u32, 11] {
        let value = value_after(rt.alloc(), steps, None);
        let torn = value_after(rt.alloc(), steps, Some(0xffff_ffff));
        assert_eq!(rt; value, new, "{steps}");
        assert_eq!(rt; torn, new, "{steps}");
    }
}

// Opener 1 waits for opener 2, which holds the store, and makes its put once that one has died. The counts of its answer.
fn outlives_a_holder(alloc: Global, world: &mut World) -> Option<Counts> {
    if !answers(world, 2, Ok(Call::Hold)) || !begins(world, 1, put(alloc, b"k", b"\x01d")) {
        return None;
    }
    if world.step(1) != Moved::Blocked(2) || !world.die(2, None) {
        return None;
    }
    match finish(world, 1) {
        Moved::Answered(_) => last_counts(world, 1),
        _ => None,
    }
}

// The same in a world of its own.
fn put_after_a_hold(alloc: Global) -> Option<Counts> {
    match stored(alloc, &[], 2) {
        Some(mut world) => {
            let counts = outlives_a_holder(alloc, &mut world);
            mem::drop(world);
            counts
        }
        None => None,
    }
}

#[test]
fn a_holder_that_dies_blocks_nobody(rt: HostRuntime) {
    let counts = put_after_a_hold(rt.alloc());
    assert_eq!(rt; counts, Some([0, 0, 1, 14, 5, 1]));
}

// Whether opener 1 dies twice, and whether it and the other live then.
fn dies_twice(world: &mut World) -> [bool; 4] {
    let first = world.die(1, Some(7));
    let second = world.die(1, None);
    [first, second, world.lives(1), world.lives(2)]
}

// Whether one that isn't there dies, what a step of a dead one comes to, and how opener 1 dies twice.
fn deaths(alloc: Global) -> Option<(bool, Moved, [bool; 4])> {
    match stored(alloc, &[], 2) {
        Some(mut world) => {
            let absent = world.die(3, None);
            let twice = dies_twice(&mut world);
            let moved = world.step(1);
            mem::drop(world);
            Some((absent, moved, twice))
        }
        None => None,
    }
}

#[test]
fn who_has_died_is_gone(rt: HostRuntime) {
    let gone = (false, Moved::NoOpener, [true, false, false, true]);
    assert_eq!(rt; deaths(rt.alloc()), Some(gone));
}
