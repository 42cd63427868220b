// A lock that two openers of a region share, and a third that waits for it.
ghost use Rattle.std.specs.Prelude.{◌≡◌, ℕ, ◌≤◌, true, false, None, [], ◌∷◌, IfSome};
ghost use Rattle.region_words.specs.Local.{seat_state, account_of, after_admission, event_of, with_account};

use lock_rules::{LockKind, Tried};
use region_words::{LocalRegion, LocalSeat, Share, What};
use std::alloc::Global;

fn admitted(mut region: LocalRegion, who: u32) -> Option<LocalRegion>
    requires least { 1 ≤ who }
    requires most { who ≤ 64 }
    requires new { (account_of region.accounts who).admitted ≡ false }
    ensures { IfSome result (λ r. r ≡ with_account region who (after_admission (account_of region.accounts who))) }
{
    region.admit(who).ok()?;
    Some(region)
}

// Openers 1, 2 and 3 may make events in a fresh region. The first call is that of opener 2.
fn three_admitted(alloc: Global) -> Option<LocalSeat>
    ensures maker { IfSome result (λ s. s.who ≡ 2) }
    ensures past { IfSome result (λ s. s.region.past ≡ []) }
    ensures first { IfSome result (λ s. (account_of s.region.accounts 1).admitted ≡ true) }
    ensures second { IfSome result (λ s. (account_of s.region.accounts 2).admitted ≡ true) }
    ensures third { IfSome result (λ s. (account_of s.region.accounts 3).admitted ≡ true) }
{
    let region = LocalRegion::new(alloc, Vec::new(alloc), Vec::new(alloc)).ok()?;
    let region = admitted(region, 1)?;
    let region = admitted(region, 2)?;
    let region = admitted(region, 3)?;
    Some(region.seat(2))
}

// The opener of the seat takes the lock as shared.
fn shared(mut seat: LocalSeat) -> Option<LocalSeat>
    requires alive { (seat_state seat).ended ≡ false }
    requires free { (seat_state seat).holds ≡ None }
    ensures past { IfSome result (λ s. s.region.past ≡ event_of seat.who (What.Lock LockKind.Shared) ∷ seat.region.past) }
    ensures admitted { IfSome result (λ s. (w : ℕ) → (account_of s.region.accounts w).admitted ≡ (account_of seat.region.accounts w).admitted) }
{
    match seat.try_lock(LockKind::Shared) {
        Ok(Tried::Taken) => Some(seat),
        _ => None,
    }
}

// Openers 1 and 2 share the lock, and the next call is that of opener 3.
fn shared_by_two(alloc: Global) -> Option<LocalSeat>
    ensures alive { IfSome result (λ s. (seat_state s).ended ≡ false) }
    ensures free { IfSome result (λ s. (seat_state s).holds ≡ None) }
    ensures past { IfSome result (λ s. s.region.past ≡ event_of 1 (What.Lock LockKind.Shared) ∷ event_of 2 (What.Lock LockKind.Shared) ∷ []) }
    ensures first { IfSome result (λ s. (account_of s.region.accounts 1).admitted ≡ true) }
    ensures third { IfSome result (λ s. (account_of s.region.accounts 3).admitted ≡ true) }
{
    let seat = three_admitted(alloc)?;
    let mut seat = shared(seat)?;
    seat.turn_to(1);
    let mut seat = shared(seat)?;
    seat.turn_to(3);
    Some(seat)
}

fn dead(mut seat: LocalSeat) -> Option<LocalSeat>
    requires { (seat_state seat).ended ≡ false }
    ensures past { IfSome result (λ s. s.region.past ≡ event_of seat.who (What.Died None) ∷ seat.region.past) }
    ensures admitted { IfSome result (λ s. (w : ℕ) → (account_of s.region.accounts w).admitted ≡ (account_of seat.region.accounts w).admitted) }
{
    match seat.die(None) {
        Ok(()) => Some(seat),
        Err(_) => None,
    }
}

// Opener 1 has died of the two that shared the lock.
fn shared_by_one(alloc: Global) -> Option<LocalSeat>
    ensures alive { IfSome result (λ s. (seat_state s).ended ≡ false) }
    ensures free { IfSome result (λ s. (seat_state s).holds ≡ None) }
{
    let mut seat = shared_by_two(alloc)?;
    seat.turn_to(1);
    let mut seat = dead(seat)?;
    seat.turn_to(3);
    Some(seat)
}

#[test]
fn a_try_names_the_least_of_those_that_share_the_lock(rt: HostRuntime) {
    let mut seat = shared_by_two(rt.alloc()).expect(&rt, "ample memory");
    assert_eq!(rt; seat.try_lock(LockKind::Exclusive), Ok(Tried::Busy(1)));
    let mut seat = shared_by_one(rt.alloc()).expect(&rt, "ample memory");
    assert_eq!(rt; seat.try_lock(LockKind::Exclusive), Ok(Tried::Busy(2)));
}
