// A write-back, event by event, alone and at a region in memory.
ghost use Rattle.std.specs.Prelude.{◌≡◌, ◌≤◌, ◌^◌, length, IfOk, IfSome, OnOk};
ghost use Rattle.std.specs.FinMap as fin;
ghost use Rattle.kv_pairs.specs.Growth.{IsFileSize};
ghost use Rattle.change_log.specs.declared.change.Act.TheVariants.{Pack};
ghost use Rattle.region_words.specs.Rows.{Row};
ghost use Rattle.region_words.specs.Owing.{IsOwing};
ghost use Rattle.region_words.specs.Local.{seat_state};
ghost use Rattle.write_back.specs.Rewrites.{rewriting};

use crate::seen::seen_in;
use change_log::{Act, Change};
use expiring_map::{Bytes, ExpiringMap, Memory, Pair};
use lock_rules::{LockKind, Tried};
use region_words::{
    LocalRegion, LocalSeat, Next, RowMaker, Share, ShareStop, Side, Standing, Stored,
};
use std::alloc::Global;
use std::test::Fail;
use test_support::opened;
use write_back::{RewriteStop, start_rewrite};

// What is known of a store in which nothing was stored yet.
const FRESH: Standing = Standing {
    sequence: 0,
    version: 0,
    flag: false,
    size: 0,
    checksum: 0,
    tail: 0,
    file_size: 4096,
};

// The checksum of zlib of the four bytes with which a payload begins.
const CRC_OF_4: u32 = 0x4c99_85d1;

// What is known of a store without pairs.
const AFTER: Standing = Standing {
    sequence: 1,
    version: 3,
    flag: false,
    size: 4,
    checksum: CRC_OF_4,
    tail: 0,
    file_size: 4096,
};

// A write-back of no pairs to a fresh store, for an item of 7 bytes.
fn packing(alloc: Global) -> Result<RowMaker, RewriteStop>
    ensures { IfOk result (λ maker. maker ≡ rewriting FRESH fin.empty (record { maker = 1; act = Pack 100 }) 7) }
{
    let change = Change {
        maker: 1,
        act: Act::Pack { now: 100 },
    };
    start_rewrite(alloc, &FRESH, &ExpiringMap::new(alloc), change, 7)
}

const FIRST_SEQUENCE: Next = Next::Store {
    side: Side::Meta,
    word: 2,
    value: 1,
};

#[test]
fn a_fresh_store_gets_the_sequence_1_first(rt: HostRuntime) -> Result<(), Fail> {
    let maker = packing(rt.alloc())?;
    assert_eq!(rt; (maker.events(), maker.room()), (8, 0));
    assert_eq!(rt; maker.next(), FIRST_SEQUENCE);
    Ok(())
}

// The number of events, the growth and the first event of a clearing.
fn clearing(alloc: Global, standing: &Standing, need: u64) -> Result<(u32, u32, Next), RewriteStop>
    requires file { IsFileSize standing.now.file_size }
    requires need { need ≤ 2 ^ 30 }
{
    let change = Change {
        maker: 1,
        act: Act::Clear,
    };
    let maker = start_rewrite(alloc, standing, &ExpiringMap::new(alloc), change, need)?;
    Ok((maker.events(), maker.room(), maker.next()))
}

#[test]
fn a_store_keeps_the_version_that_it_has(rt: HostRuntime) -> Result<(), Fail> {
    let first = Next::Store {
        side: Side::Meta,
        word: 2,
        value: 2,
    };
    for version in [3, 4] {
        let standing = Standing { version, ..AFTER };
        assert_eq!(rt; clearing(rt.alloc(), &standing, 0)?, (7, 0, first));
    }
    assert_eq!(rt; clearing(rt.alloc(), &FRESH, 0)?, (8, 0, FIRST_SEQUENCE));
    Ok(())
}

// 2^26 is 67,108,864: the header, the four bytes and 67,108,856 more make as much.
#[test]
fn a_full_store_says_so_before_the_end_of_the_sequence(rt: HostRuntime) {
    let alloc = rt.alloc();
    let last = Standing {
        sequence: u32::MAX,
        ..AFTER
    };
    let grown = Ok((8, 67_108_864, Next::Grow(67_108_864)));
    let full = Err(RewriteStop::Full { need: 67_108_865 });
    let end = Err(RewriteStop::SequenceEnd);
    assert_eq!(rt; clearing(alloc, &AFTER, 67_108_856), grown);
    assert_eq!(rt; clearing(alloc, &AFTER, 67_108_857), full);
    assert_eq!(rt; clearing(alloc, &last, 67_108_856), end);
    assert_eq!(rt; clearing(alloc, &last, 67_108_857), full);
    let far = Err(RewriteStop::Full { need: 67_108_872 });
    assert_eq!(rt; clearing(alloc, &last, 67_108_864), far);
}

// A write-back of the key a with 4000 bytes, whose item takes 4004, to a store without pairs.
fn packing_pair(alloc: Global, value: &[u8]) -> Result<RowMaker, Fail>
    requires { length value.now ≡ 4000 }
{
    let mut map = ExpiringMap::new(alloc);
    map.put(Pair {
        key: Bytes::copy_of(alloc, b"a")?,
        value: Bytes::copy_of(alloc, value)?,
        expiry: 0,
    })?;
    let change = Change {
        maker: 1,
        act: Act::Pack { now: 100 },
    };
    Ok(start_rewrite(alloc, &AFTER, &map, change, 85)?)
}

// 4 + 4008 + 85 bytes are needed, and room for eight pairs as long is kept: 36,873 bytes are wanted.
#[test]
fn a_file_that_is_too_small_grows_first(rt: HostRuntime) -> Result<(), Fail> {
    let maker = packing_pair(rt.alloc(), &[7; 4000])?;
    // The growth, the sequence, 1002 words, and 5 stores behind them.
    assert_eq!(rt; (maker.events(), maker.room()), (1009, 65_536));
    assert_eq!(rt; maker.next(), Next::Grow(65_536));
    Ok(())
}

// A write-back to a fresh store whose lock opener 1 holds.
fn rewriting(alloc: Global) -> Option<(RowMaker, LocalSeat)>
    ensures { IfSome result (λ r. (row : Row) × IsOwing row r.0.events (seat_state r.1)) }
{
    let maker = packing(alloc).ok()?;
    let mut seat = opened(alloc, b"", b"", &[])?;
    match seat.try_lock(LockKind::Exclusive) {
        Ok(Tried::Taken) => {}
        _ => return None,
    }
    match seat.reserve(8, 0) {
        Ok(()) => Some((maker, seat)),
        Err(_) => None,
    }
}

// Makes so many of the events, as far as there are any.
fn make<S: Share>(maker: &mut RowMaker, share: &mut S, steps: u32) -> Result<Stored, ShareStop>
    requires { (row : Row) × IsOwing row maker.old.events (S.state share.old) }
    ensures { OnOk result ((row : Row) × IsOwing row maker.new.events (S.state share.new)) }
{
    let mut stored = Stored::More;
    for _ in 0..steps {
        if maker.events() == 0 {
            return Ok(Stored::Done);
        }
        stored = maker.step(share)?;
    }
    Ok(stored)
}

// What is known of the image, once all is stored.
fn standing_of(maker: &RowMaker) -> Option<Standing> {
    if maker.events() > 0 {
        return None;
    }
    Some(maker.standing())
}

#[test]
fn what_is_known_at_the_end_is_not_told_before(rt: HostRuntime) -> Result<(), Fail> {
    let (mut maker, mut seat) = rewriting(rt.alloc()).expect(&rt, "ample memory");
    assert_eq!(rt; make(&mut maker, &mut seat, 7)?, Stored::More);
    assert_eq!(rt; maker.events(), 1);
    assert_eq!(rt; standing_of(&maker), None);
    assert_eq!(rt; make(&mut maker, &mut seat, 1)?, Stored::Done);
    assert_eq!(rt; standing_of(&maker), Some(AFTER));
    Ok(())
}

// What stands after so many events and a death.
fn cut(alloc: Global, steps: u32) -> Option<LocalRegion> {
    let (mut maker, mut seat) = rewriting(alloc)?;
    make(&mut maker, &mut seat, steps).ok()?;
    seat.die(None).ok()?;
    Some(seat.into_region())
}

#[test]
fn the_last_sizes_come_behind_the_checksum_which_alone_is_marked(
    rt: HostRuntime,
) -> Result<(), Fail> {
    let region = cut(rt.alloc(), 8).expect(&rt, "ample memory");
    let seen = seen_in(rt.alloc(), &region)?;
    let want = [
        None,
        Some((1, Side::Meta, 2, 1, false)),
        Some((1, Side::Meta, 1, 3, false)),
        Some((1, Side::Data, 1, 0x07ff_ffff, false)),
        Some((1, Side::Data, 0, 4, false)),
        Some((1, Side::Meta, 0, 0x4c99_85d1, true)),
        Some((1, Side::Meta, 7, 4, false)),
        Some((1, Side::Meta, 8, 4, false)),
        Some((1, Side::Meta, 9, 0x4c99_85d1, false)),
        None,
    ];
    assert_eq!(rt; seen.as_slice(), want.as_slice());
    Ok(())
}

// The makers and the seconds of the write-backs among the changes.
fn packs_in(alloc: Global, region: &LocalRegion) -> Result<Vec<(u32, u32)>, Memory> {
    let mut packs = Vec::new(alloc);
    for change in region.changes(alloc)?.as_slice() {
        if let Act::Pack { now } = &change.act {
            packs.push((change.maker, *now))?;
        }
    }
    Ok(packs)
}

#[test]
fn the_change_counts_from_its_checksum_on(rt: HostRuntime) -> Result<(), Fail> {
    for (steps, want) in [(4, 0), (5, 1), (8, 1)] {
        let region = cut(rt.alloc(), steps).expect(&rt, "ample memory");
        let packs = packs_in(rt.alloc(), &region)?;
        assert_eq!(rt; packs.len(), want, "after {steps}");
        for pack in packs.iter() {
            assert_eq!(rt; *pack, (1, 100));
        }
    }
    Ok(())
}

#[test]
fn a_death_leaves_the_events_before_it(rt: HostRuntime) {
    let none: &[u8] = &[0; 8];
    let word: &[u8] = b"\0\0\0\0\xff\xff\xff\x07";
    let headed: &[u8] = b"\x04\0\0\0\xff\xff\xff\x07";
    // The checksum, the version and the sequence; the size, the last size and the last checksum.
    let rows: [(u32, &[u8], &[u8], &[u8]); 9] = [
        (0, none, &[0; 12], &[0; 12]),
        (1, none, b"\0\0\0\0\0\0\0\0\x01\0\0\0", &[0; 12]),
        (2, none, b"\0\0\0\0\x03\0\0\0\x01\0\0\0", &[0; 12]),
        (3, word, b"\0\0\0\0\x03\0\0\0\x01\0\0\0", &[0; 12]),
        (4, headed, b"\0\0\0\0\x03\0\0\0\x01\0\0\0", &[0; 12]),
        (5, headed, b"\xd1\x85\x99\x4c\x03\0\0\0\x01\0\0\0", &[0; 12]),
        (
            6,
            headed,
            b"\xd1\x85\x99\x4c\x03\0\0\0\x01\0\0\0",
            b"\x04\0\0\0\0\0\0\0\0\0\0\0",
        ),
        (
            7,
            headed,
            b"\xd1\x85\x99\x4c\x03\0\0\0\x01\0\0\0",
            b"\x04\0\0\0\x04\0\0\0\0\0\0\0",
        ),
        (
            8,
            headed,
            b"\xd1\x85\x99\x4c\x03\0\0\0\x01\0\0\0",
            b"\x04\0\0\0\x04\0\0\0\xd1\x85\x99\x4c",
        ),
    ];
    for (steps, data, front, sizes) in rows {
        let region = cut(rt.alloc(), steps).expect(&rt, "ample memory");
        assert_eq!(rt; region.data_bytes().get(..8), Some(data), "after {steps}");
        assert_eq!(rt; region.meta_bytes().get(..12), Some(front), "after {steps}");
        assert_eq!(rt;
            region.meta_bytes().get(28..40),
            Some(sizes),
            "after {steps}"
        );
        assert_eq!(rt; region.journal().len() as u64, 2 + u64::from(steps));
    }
}
