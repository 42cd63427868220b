// A data file that grows, as it does before its pairs are written back for a put that has no room.
ghost use Rattle.std.specs.Prelude.{◌≡◌, ◌<◌, ◌≤◌, false, Some, IfSome};
ghost use Rattle.region_words.specs.Local.{seat_state};
ghost use Rattle.region_words.specs.Share.{MayMake};

use lock_rules::{LockKind, Tried};
use region_words::{LocalSeat, Share, What};
use std::alloc::Global;
use test_support::opened;

// Opener 1 holds the lock, and has a place and room for a growth to two pages.
fn growing(alloc: Global) -> Option<LocalSeat>
    ensures alive { IfSome result (λ s. (seat_state s).ended ≡ false) }
    ensures held { IfSome result (λ s. (seat_state s).holds ≡ Some LockKind.Exclusive) }
    ensures place { IfSome result (λ s. 0 < (seat_state s).reserved s.who) }
    ensures room { IfSome result (λ s. 8192 ≤ (seat_state s).room s.who) }
    ensures lawful { IfSome result (λ s. MayMake (What.Grow 8192) (seat_state s)) }
{
    let mut seat = opened(alloc, b"", b"", &[])?;
    match seat.try_lock(LockKind::Exclusive) {
        Ok(Tried::Taken) => {}
        _ => return None,
    }
    match seat.reserve(1, 8192) {
        Ok(()) => Some(seat),
        Err(_) => None,
    }
}

#[test]
fn a_growth_is_noted_and_adds_zeros_to_the_data_file_alone(rt: HostRuntime) {
    let mut seat = growing(rt.alloc()).expect(&rt, "ample memory");
    assert_eq!(rt; seat.grow(8192), Ok(()));
    let region = seat.into_region();
    assert_eq!(rt; region.data_bytes(), [0u8; 8192].as_slice());
    assert_eq!(rt; region.meta_bytes().len(), 4096);
    assert_eq!(rt; region.journal().len(), 2);
}
