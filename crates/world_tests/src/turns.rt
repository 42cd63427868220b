// Calls of two openers, in turns.
use crate::worlds::{finish, fresh, put, sizes};
use std::alloc::Global;
use world::{Moved, World};

// Put number i is by opener 1 + i mod 2, of key number i mod 40 and the value i as a u32 is spelled.
fn put_number(alloc: Global, world: &mut World, i: u32) -> Option<Moved> {
    let number = i % 40;
    let key = [
        b'k',
        b'e',
        b'y',
        b'0' + (number / 10) as u8,
        b'0' + (number % 10) as u8,
    ];
    let low = (i % 128) as u8;
    let call = if i < 128 {
        put(alloc, &key, &[low]).ok()?
    } else {
        put(alloc, &key, &[low + 128, (i / 128 % 128) as u8]).ok()?
    };
    let who = 1 + i % 2;
    match world.begin(who, call, 100) {
        Ok(()) => Some(finish(world, who)),
        Err(_) => None,
    }
}

// Whether so many puts, in turns, are all answered.
fn all_are_answered(alloc: Global, world: &mut World, count: u32) -> bool {
    for i in 0..count {
        match put_number(alloc, world, i) {
            Some(Moved::Answered(_)) => {}
            _ => return false,
        }
    }
    true
}

#[test]
fn six_hundred_puts_in_turns_fit_in_one_page(rt: HostRuntime) {
    let alloc = rt.alloc();
    let mut world = fresh(alloc, 2).expect(&rt, "ample memory");
    assert_eq!(rt; all_are_answered(alloc, &mut world, 600), true);
    assert_eq!(rt; world.answers().len(), 600);
    assert_eq!(rt; sizes(alloc, &world), Some((1552, 602, 4096)));
}
