// A switch of the expiry, event by event, alone and at a region in memory.
ghost use Rattle.std.specs.Prelude.{◌≡◌, ◌≤◌, ◌^◌, IfOk, IfSome, OnOk, false};
ghost use Rattle.std.specs.FinMap as fin;
ghost use Rattle.kv_pairs.specs.Fits.{FitsIn};
ghost use Rattle.kv_pairs.specs.Growth.{IsFileSize, largest};
ghost use Rattle.region_words.specs.Rows.{Row};
ghost use Rattle.region_words.specs.Owing.{IsOwing};
ghost use Rattle.region_words.specs.Local.{seat_state};
ghost use Rattle.expiry_switch.specs.Switches.{enabling};

use crate::seen::seen_in;
use expiring_map::{Bytes, ExpiringMap, Pair};
use expiry_switch::{SwitchStop, start_disable, start_enable};
use lock_rules::{LockKind, Tried};
use region_words::{LocalRegion, LocalSeat, RowMaker, Share, ShareStop, Side, Standing, Stored};
use std::alloc::Global;
use std::test::Fail;
use test_support::opened;

// What is known of a store in which nothing was stored yet.
const FRESH: Standing = Standing {
    sequence: 0,
    version: 0,
    flag: false,
    size: 0,
    checksum: 0,
    tail: 0,
    file_size: 4096,
};

// What is known of a store without pairs whose expiry was switched on; zlib has this checksum for the four bytes of its payload.
const AFTER: Standing = Standing {
    sequence: 1,
    version: 4,
    flag: true,
    size: 4,
    checksum: 0x4c99_85d1,
    tail: 0,
    file_size: 4096,
};

// The switch of a fresh store at second 100, by opener 1.
fn enabling(alloc: Global) -> Result<RowMaker, SwitchStop>
    ensures { IfOk result (λ maker. maker ≡ enabling FRESH fin.empty 1 100 0) }
{
    let (maker, _) = start_enable(alloc, &FRESH, ExpiringMap::new(alloc), 1, 100, 0)?;
    Ok(maker)
}

#[test]
fn a_switch_of_no_pairs_stores_twelve_words(rt: HostRuntime) -> Result<(), Fail> {
    let maker = enabling(rt.alloc())?;
    assert_eq!(rt; (maker.events(), maker.room()), (12, 0));
    Ok(())
}

// Why a store without pairs isn't switched on.
fn on_refused(alloc: Global, standing: &Standing, now: u32, seconds: u32) -> Option<SwitchStop>
    requires { IsFileSize standing.now.file_size }
{
    start_enable(alloc, standing, ExpiringMap::new(alloc), 1, now, seconds).err()
}

// Why it isn't switched off.
fn off_refused(alloc: Global, standing: &Standing) -> Option<SwitchStop>
    requires { IsFileSize standing.now.file_size }
{
    start_disable(alloc, standing, ExpiringMap::new(alloc), 1, 100).err()
}

#[test]
fn the_flag_is_looked_at_before_the_expiry_and_the_sequence(rt: HostRuntime) {
    let alloc = rt.alloc();
    let last = u32::MAX;
    let on = Standing {
        sequence: last,
        ..AFTER
    };
    let off = Standing { flag: false, ..on };
    assert_eq!(rt;
        on_refused(alloc, &on, last, last),
        Some(SwitchStop::AlreadyOn)
    );
    assert_eq!(rt;
        on_refused(alloc, &off, last, 1),
        Some(SwitchStop::ExpiryRange)
    );
    assert_eq!(rt;
        on_refused(alloc, &off, last, 0),
        Some(SwitchStop::SequenceEnd)
    );
    assert_eq!(rt;
        on_refused(alloc, &off, 1, last - 1),
        Some(SwitchStop::SequenceEnd)
    );
    assert_eq!(rt; off_refused(alloc, &off), Some(SwitchStop::AlreadyOff));
    assert_eq!(rt; off_refused(alloc, &on), Some(SwitchStop::SequenceEnd));
    assert_eq!(rt; on_refused(alloc, &FRESH, last - 7, 7), None);
    assert_eq!(rt; off_refused(alloc, &AFTER), None);
}

// The key a with so many bytes, whose length takes four.
fn one_pair(alloc: Global, size: usize) -> Result<ExpiringMap, Fail>
    requires least { 2 ^ 21 ≤ size }
    requires most { size ≤ 67108847 }
    ensures { IfOk result (λ m. FitsIn false m largest) }
{
    let mut map = ExpiringMap::new(alloc);
    map.put(Pair {
        key: Bytes::copy_of(alloc, b"a")?,
        value: Bytes::of_vec(vec![in alloc; 0u8; size]?),
        expiry: 0,
    })?;
    Ok(map)
}

// Why the store of such a pair isn't switched on where the sequence is at its end.
fn refused_at_the_end(alloc: Global, size: usize) -> Result<Option<SwitchStop>, Fail>
    requires least { 2 ^ 21 ≤ size }
    requires most { size ≤ 67108847 }
{
    let last = Standing {
        sequence: u32::MAX,
        ..FRESH
    };
    let map = one_pair(alloc, size)?;
    Ok(start_enable(alloc, &last, map, 1, 100, 0).err())
}

// 2^26 is 67,108,864. The header, the four bytes of the payload, the key's two, the four of the value's length, and the four of its
// expiry make 18 beside the value.
#[test]
fn a_full_store_is_named_before_the_end_of_the_sequence(rt: HostRuntime) -> Result<(), Fail> {
    let full = SwitchStop::Full { need: 67_108_865 };
    assert_eq!(rt; refused_at_the_end(rt.alloc(), 67_108_847)?, Some(full));
    assert_eq!(rt;
        refused_at_the_end(rt.alloc(), 67_108_846)?,
        Some(SwitchStop::SequenceEnd)
    );
    Ok(())
}

// The switch of a fresh store whose lock opener 1 holds.
fn switching(alloc: Global) -> Option<(RowMaker, LocalSeat)>
    ensures { IfSome result (λ r. (row : Row) × IsOwing row r.0.events (seat_state r.1)) }
{
    let maker = enabling(alloc).ok()?;
    let mut seat = opened(alloc, b"", b"", &[])?;
    match seat.try_lock(LockKind::Exclusive) {
        Ok(Tried::Taken) => {}
        _ => return None,
    }
    match seat.reserve(12, 0) {
        Ok(()) => Some((maker, seat)),
        Err(_) => None,
    }
}

// Makes so many of the events, as far as there are any.
fn make<S: Share>(maker: &mut RowMaker, share: &mut S, steps: u32) -> Result<Stored, ShareStop>
    requires { (row : Row) × IsOwing row maker.old.events (S.state share.old) }
    ensures { OnOk result ((row : Row) × IsOwing row maker.new.events (S.state share.new)) }
{
    let mut stored = Stored::More;
    for _ in 0..steps {
        if maker.events() == 0 {
            return Ok(Stored::Done);
        }
        stored = maker.step(share)?;
    }
    Ok(stored)
}

#[test]
fn after_the_last_store_all_is_known_of_the_image(rt: HostRuntime) -> Result<(), Fail> {
    let (mut maker, mut seat) = switching(rt.alloc()).expect(&rt, "ample memory");
    assert_eq!(rt; make(&mut maker, &mut seat, 11)?, Stored::More);
    assert_eq!(rt; maker.events(), 1);
    assert_eq!(rt; make(&mut maker, &mut seat, 1)?, Stored::Done);
    assert_eq!(rt; maker.standing(), AFTER);
    Ok(())
}

// What stands after so many events and a death.
fn cut(alloc: Global, steps: u32) -> Option<LocalRegion> {
    let (mut maker, mut seat) = switching(alloc)?;
    make(&mut maker, &mut seat, steps).ok()?;
    seat.die(None).ok()?;
    Some(seat.into_region())
}

#[test]
fn all_sizes_are_closed_before_the_payload_and_the_header_alone_is_marked(
    rt: HostRuntime,
) -> Result<(), Fail> {
    let region = cut(rt.alloc(), 12).expect(&rt, "ample memory");
    let seen = seen_in(rt.alloc(), &region)?;
    let closed = 0xffff_ffff;
    let want = [
        None,
        Some((1, Side::Meta, 2, 1, false)),
        Some((1, Side::Meta, 1, 4, false)),
        Some((1, Side::Meta, 7, closed, false)),
        Some((1, Side::Data, 0, closed, false)),
        Some((1, Side::Meta, 8, closed, false)),
        Some((1, Side::Data, 1, 0x07ff_ffff, false)),
        Some((1, Side::Meta, 26, 1, false)),
        Some((1, Side::Meta, 0, 0x4c99_85d1, false)),
        Some((1, Side::Meta, 9, 0x4c99_85d1, false)),
        Some((1, Side::Data, 0, 4, true)),
        Some((1, Side::Meta, 7, 4, false)),
        Some((1, Side::Meta, 8, 4, false)),
        None,
    ];
    assert_eq!(rt; seen.as_slice(), want.as_slice());
    Ok(())
}

#[test]
fn the_change_counts_from_its_header_on(rt: HostRuntime) -> Result<(), Fail> {
    for (steps, want) in [(0, 0), (4, 0), (9, 0), (10, 1), (12, 1)] {
        let region = cut(rt.alloc(), steps).expect(&rt, "ample memory");
        let changes = region.changes(rt.alloc())?;
        assert_eq!(rt; changes.as_slice().len(), want, "after {steps}");
    }
    Ok(())
}
