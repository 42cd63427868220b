// Calls on a seat.
ghost use Rattle.std.specs.Prelude.{◌≡◌, false, None};

use crate::desks::desk_of_two;
use lock_rules::{LockKind, Tried};
use region_words::{Peek, Share, ShareStop, Side};
use std::alloc::Global;

// What the calls answer that look at a region.
#[derive(Clone, Copy, Debug, PartialEq, Eq)]
struct Looks {
    checksum: Peek,
    sequence: u32,
    size: u32,
    word: u32,
    lock: Tried,
}

fn look_at<S: Share>(share: &mut S) -> Result<Looks, ShareStop>
    requires alive { (S.state share.old).ended ≡ false }
    requires free { (S.state share.old).holds ≡ None }
{
    let checksum = share.peek_checksum()?;
    let sequence = share.peek_sequence()?;
    let size = share.size()?;
    let _ = share.who();
    let word = share.load(Side::Data, 3)?;
    let lock = share.try_lock(LockKind::Shared)?;
    Ok(Looks {
        checksum,
        sequence,
        size,
        word,
        lock,
    })
}

// Those of opener 1 at a new desk, whose calls of the listed numbers fail.
#[tactic(auto, using(crate::proofs::Free::none_at_first))]
fn looks_at_a_desk(alloc: Global, fails: &[u64]) -> Option<Result<Looks, ShareStop>> {
    let (desk, pass) = desk_of_two(alloc, fails)?;
    let mut seat = desk.seat(pass);
    Some(look_at(&mut seat))
}

#[test]
fn a_seat_answers_the_words_of_the_region(rt: HostRuntime) {
    assert_eq!(rt;
        looks_at_a_desk(rt.alloc(), &[]),
        Some(Ok(Looks {
            checksum: Peek {
                checksum: 0x3a65_95d3,
                changes: 0,
            },
            sequence: 1,
            size: 4096,
            word: u32::from_le_bytes(*b"abc\0"),
            lock: Tried::Taken,
        }))
    );
}

#[test]
fn a_seat_hands_on_a_fault_and_never_at_a_peek(rt: HostRuntime) {
    let failed = Some(Err(ShareStop::Failed));
    for call in [0, 1, 2] {
        assert_eq!(rt; looks_at_a_desk(rt.alloc(), &[call]), failed);
    }
    assert!(rt; looks_at_a_desk(rt.alloc(), &[3]) != failed);
}

// Whether the lock is free for opener 2 after opener 1 took it, and after opener 1 died.
#[tactic(auto, using(crate::proofs::Free::none_at_first))]
fn tries_beside_a_death(alloc: Global) -> Option<[Result<Tried, ShareStop>; 2]> {
    let (desk, pass) = desk_of_two(alloc, &[])?;
    let mut first = desk.seat(pass);
    let mut second = desk.seat(first.split(2));
    let Ok(Tried::Taken) = first.try_lock(LockKind::Exclusive) else {
        return None;
    };
    let Ok(before) = second.try_lock(LockKind::Exclusive) else {
        return None;
    };
    let Tried::Busy(_) = before else {
        return None;
    };
    first.die(None).ok()?;
    Some([Ok(before), second.try_lock(LockKind::Exclusive)])
}

#[test]
fn a_death_at_one_seat_frees_the_lock_for_another(rt: HostRuntime) {
    assert_eq!(rt;
        tries_beside_a_death(rt.alloc()),
        Some([Ok(Tried::Busy(1)), Ok(Tried::Taken)])
    );
}
