// Openers and their numbers.
use crate::worlds::{finish, fresh, get, handler, noted_value, numbers, put, stored};
use change_log::Call;
use expiring_map::Bytes;
use opener::{Refused, Stop};
use std::alloc::Global;
use std::test::Fail;
use world::{MOST_OPENERS, Moved, OpenStop, World, WorldStop};

// The number of one more opener, or why there is none.
fn opened(alloc: Global, world: &mut World) -> Option<Result<u32, OpenStop>> {
    let handler = handler(alloc).ok()?;
    match world.open(handler) {
        Ok(who) => Some(Ok(who)),
        Err(refused) => Some(Err(refused.why)),
    }
}

#[test]
fn openers_are_numbered_in_their_order(rt: HostRuntime) {
    let alloc = rt.alloc();
    let mut world = fresh(alloc, 0).expect(&rt, "ample memory");
    assert_eq!(rt; opened(alloc, &mut world), Some(Ok(1)));
    assert_eq!(rt; opened(alloc, &mut world), Some(Ok(2)));
    assert_eq!(rt; opened(alloc, &mut world), Some(Ok(3)));
}

#[test]
fn the_sixty_fifth_is_refused(rt: HostRuntime) {
    let alloc = rt.alloc();
    let mut world = fresh(alloc, MOST_OPENERS as u32).expect(&rt, "ample memory");
    assert_eq!(rt; opened(alloc, &mut world), Some(Err(OpenStop::TooMany)));
    assert_eq!(rt; world.begin(64, Call::Count, 100), Ok(()));
    assert_eq!(rt; finish(&mut world, 64), Moved::Answered(0));
}

#[test]
fn a_number_that_nobody_has_is_refused(rt: HostRuntime) {
    let alloc = rt.alloc();
    let mut world = stored(alloc, &[], 2).expect(&rt, "ample memory");
    assert_eq!(rt; world.begin(0, Call::Count, 100), Err(WorldStop::NoOpener));
    assert_eq!(rt; world.begin(3, Call::Count, 100), Err(WorldStop::NoOpener));
    assert_eq!(rt; world.step(0), Moved::NoOpener);
    assert_eq!(rt; world.step(3), Moved::NoOpener);
    assert_eq!(rt; world.step(2), Moved::Idle);
}

#[test]
fn a_call_is_refused_for_its_first_reason(rt: HostRuntime) {
    let alloc = rt.alloc();
    let mut world = stored(alloc, &[], 2).expect(&rt, "ample memory");
    let key = Bytes::of_vec(Vec::new(alloc));
    assert_eq!(rt;
        world.begin(1, Call::Get { key }, 100),
        Err(WorldStop::Refused(Refused::EmptyKey))
    );
    assert_eq!(rt;
        world.begin(1, Call::Release, 100),
        Err(WorldStop::Refused(Refused::NotHeld))
    );
    assert_eq!(rt; world.begin(1, Call::Count, 100), Ok(()));
    assert_eq!(rt;
        world.begin(1, Call::Count, 100),
        Err(WorldStop::Refused(Refused::CallRunning))
    );
    assert_eq!(rt; world.begin(2, Call::Count, 100), Ok(()));
    assert_eq!(rt; finish(&mut world, 2), Moved::Answered(0));
    assert_eq!(rt; finish(&mut world, 1), Moved::Answered(1));
    assert_eq!(rt; numbers(&world, 0), Some((2, 0, 0, 0, 0, 1)));
    assert_eq!(rt; numbers(&world, 1), Some((1, 0, 0, 0, 0, 1)));
}

#[test]
fn an_opener_whose_call_on_the_region_fails_is_gone(rt: HostRuntime) -> Result<(), Fail> {
    let alloc = rt.alloc();
    let mut world = stored(alloc, &[3], 2).expect(&rt, "ample memory");
    let put = put(alloc, b"k", b"\x01d")?;
    assert_eq!(rt; world.begin(1, put, 100), Ok(()));
    assert_eq!(rt; finish(&mut world, 1), Moved::Stopped(Stop::Fault));
    assert_eq!(rt; world.step(1), Moved::NoOpener);
    assert_eq!(rt; world.begin(1, Call::Count, 100), Err(WorldStop::NoOpener));
    assert_eq!(rt; world.begin(2, get(alloc)?, 100), Ok(()));
    assert_eq!(rt; finish(&mut world, 2), Moved::Answered(0));
    assert_eq!(rt; opened(alloc, &mut world), Some(Ok(3)));
    Ok(())
}

#[test]
fn a_region_is_handed_back_without_its_openers(rt: HostRuntime) -> Result<(), Fail> {
    let alloc = rt.alloc();
    let mut world = stored(alloc, &[], 1).expect(&rt, "ample memory");
    let put = put(alloc, b"k", b"\x01d")?;
    assert_eq!(rt; world.begin(1, put, 100), Ok(()));
    assert_eq!(rt; finish(&mut world, 1), Moved::Answered(0));
    let (data, _) = world.into_region().into_bytes();
    assert_eq!(rt; data.len(), 4096);
    assert_eq!(rt; &data[..4], b"\x10\0\0\0".as_slice());
    Ok(())
}

#[test]
fn the_map_at_the_start_is_noted(rt: HostRuntime) {
    let value = noted_value(rt.alloc()).expect(&rt, "ample memory");
    assert!(rt; value.as_slice() == b"\x03abc".as_slice());
}
