// What a call loads after another opener has changed the store.
use crate::worlds::{finish, get, put, stored};
use change_log::{Answer, Call};
use expiring_map::{Bytes, Memory};
use opener::Stop;
use std::alloc::Global;
use std::test::Fail;
use world::{Moved, World};

fn remove(alloc: Global, key: &[u8]) -> Result<Call, Memory> {
    Ok(Call::Remove {
        key: Bytes::copy_of(alloc, key)?,
    })
}

// Begin, place and end of an answer, and its loads, stores and locks.
fn counts(answer: &Answer) -> [u32; 6] {
    [
        answer.begun,
        answer.place,
        answer.ended,
        answer.loads,
        answer.stores,
        answer.locks,
    ]
}

// The counts of the last answer.
fn last(world: &World) -> Option<[u32; 6]> {
    Some(counts(world.answers().last()?))
}

// The steps of the call that runs, and the counts of its answer.
fn answered(world: &mut World, who: u32) -> Option<[u32; 6]> {
    match finish(world, who) {
        Moved::Answered(_) => last(world),
        _ => None,
    }
}

#[test]
fn a_read_after_anothers_append_loads_what_was_appended(rt: HostRuntime) -> Result<(), Fail> {
    let alloc = rt.alloc();
    let mut world = stored(alloc, &[], 2).expect(&rt, "ample memory");
    assert_eq!(rt; world.begin(1, get(alloc)?, 100), Ok(()));
    assert_eq!(rt; answered(&mut world, 1), Some([0, 0, 0, 13, 0, 1]));
    // its two looks stand on both sides of the put
    assert_eq!(rt; world.begin(1, get(alloc)?, 100), Ok(()));
    assert_eq!(rt; world.step(1), Moved::Going);
    let other = put(alloc, b"k", b"\x01d")?;
    assert_eq!(rt; world.begin(2, other, 100), Ok(()));
    assert_eq!(rt; answered(&mut world, 2), Some([0, 0, 1, 14, 5, 1]));
    assert_eq!(rt; finish(&mut world, 1), Moved::Answered(2));
    assert_eq!(rt; last(&world), Some([0, 0, 1, 2, 0, 0]));
    assert_eq!(rt; world.begin(1, get(alloc)?, 100), Ok(()));
    assert_eq!(rt; answered(&mut world, 1), Some([1, 1, 1, 7, 0, 1]));
    Ok(())
}

// The counts are those of the reference model.
#[test]
fn a_write_after_anothers_append_loads_what_was_appended(rt: HostRuntime) -> Result<(), Fail> {
    let alloc = rt.alloc();
    let mut world = stored(alloc, &[], 2).expect(&rt, "ample memory");
    let first = put(alloc, b"k", b"\x01d")?;
    assert_eq!(rt; world.begin(2, first, 100), Ok(()));
    assert_eq!(rt; answered(&mut world, 2), Some([0, 0, 1, 14, 5, 1]));
    let second = put(alloc, b"k", b"\x01e")?;
    assert_eq!(rt; world.begin(1, second, 100), Ok(()));
    assert_eq!(rt; answered(&mut world, 1), Some([1, 1, 2, 15, 5, 1]));
    let third = put(alloc, b"m", b"12345")?;
    assert_eq!(rt; world.begin(2, third, 100), Ok(()));
    assert_eq!(rt; answered(&mut world, 2), Some([2, 2, 3, 8, 6, 1]));
    let fourth = remove(alloc, b"m")?;
    assert_eq!(rt; world.begin(1, fourth, 100), Ok(()));
    assert_eq!(rt; answered(&mut world, 1), Some([3, 3, 4, 9, 4, 1]));
    Ok(())
}

#[test]
fn under_a_hold_what_was_appended_is_loaded_without_a_lock(rt: HostRuntime) -> Result<(), Fail> {
    let alloc = rt.alloc();
    let mut world = stored(alloc, &[], 2).expect(&rt, "ample memory");
    assert_eq!(rt; world.begin(1, get(alloc)?, 100), Ok(()));
    assert_eq!(rt; answered(&mut world, 1), Some([0, 0, 0, 13, 0, 1]));
    let long = put(alloc, b"n", &[7; 40])?;
    assert_eq!(rt; world.begin(2, long, 100), Ok(()));
    assert_eq!(rt; answered(&mut world, 2), Some([0, 0, 1, 14, 15, 1]));
    assert_eq!(rt; world.begin(1, Call::Hold, 100), Ok(()));
    assert_eq!(rt; answered(&mut world, 1), Some([1, 1, 1, 0, 0, 1]));
    assert_eq!(rt; world.begin(1, get(alloc)?, 100), Ok(()));
    assert_eq!(rt; answered(&mut world, 1), Some([1, 1, 1, 17, 0, 0]));
    assert_eq!(rt; world.begin(1, Call::Release, 100), Ok(()));
    assert_eq!(rt; answered(&mut world, 1), Some([1, 1, 1, 0, 0, 0]));
    Ok(())
}

#[test]
fn where_the_sequence_is_another_all_is_loaded(rt: HostRuntime) -> Result<(), Fail> {
    let alloc = rt.alloc();
    let mut world = stored(alloc, &[], 2).expect(&rt, "ample memory");
    assert_eq!(rt; world.begin(1, get(alloc)?, 100), Ok(()));
    assert_eq!(rt; answered(&mut world, 1), Some([0, 0, 0, 13, 0, 1]));
    assert_eq!(rt; world.begin(2, Call::Clear, 100), Ok(()));
    assert_eq!(rt; answered(&mut world, 2), Some([0, 0, 1, 14, 7, 1]));
    assert_eq!(rt; world.begin(1, get(alloc)?, 100), Ok(()));
    assert_eq!(rt; answered(&mut world, 1), Some([1, 1, 1, 13, 0, 1]));
    Ok(())
}

// What a get comes to after a get of the same opener and another's append, where the call of this number on the region fails.
fn second_get(alloc: Global, fails: u64) -> Option<Moved> {
    let mut world = stored(alloc, &[fails], 2)?;
    world.begin(1, get(alloc).ok()?, 100).ok()?;
    answered(&mut world, 1)?;
    world.begin(2, put(alloc, b"k", b"\x01d").ok()?, 100).ok()?;
    answered(&mut world, 2)?;
    world.begin(1, get(alloc).ok()?, 100).ok()?;
    Some(finish(&mut world, 1))
}

// The first get makes 15 calls on the region, the put 22, and the second get 9: two looks, a lock, five loads and an unlock.
#[test]
fn each_of_the_calls_of_a_get_after_anothers_append_may_fail(rt: HostRuntime) {
    for fails in 37..46u64 {
        let moved = second_get(rt.alloc(), fails);
        assert_eq!(rt; moved, Some(Moved::Stopped(Stop::Fault)), "call {fails}");
    }
    assert_eq!(rt; second_get(rt.alloc(), 46), Some(Moved::Answered(2)));
}
