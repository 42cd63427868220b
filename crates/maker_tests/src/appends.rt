// An append, store by store, alone and at a region in memory.
ghost use Rattle.std.specs.Prelude.{◌≡◌, ◌∷◌, codes, IfOk, IfSome, OnOk};
ghost use Rattle.change_log.specs.declared.change.Act.TheVariants.{Put};
ghost use Rattle.region_words.specs.Rows.{Row};
ghost use Rattle.region_words.specs.Owing.{IsOwing};
ghost use Rattle.region_words.specs.Local.{seat_state};
ghost use Rattle.appender.specs.Appends.{appending};

use crate::seen::seen_in;
use appender::start_append;
use change_log::{Act, Change};
use expiring_map::{Bytes, Memory};
use lock_rules::{LockKind, Tried};
use region_words::{
    LocalRegion, LocalSeat, Next, RowMaker, Share, ShareStop, Side, Standing, Stored,
};
use std::alloc::Global;
use std::test::Fail;
use test_support::{BODY, META, opened};

// What is known of a store of the pair k, abc. The checksum is that of zlib.
const KNOWN: Standing = Standing {
    sequence: 1,
    version: 3,
    flag: false,
    size: 11,
    checksum: 0x3a65_95d3,
    tail: 0x0063_6261,
    file_size: 4096,
};

const AFTER: Standing = Standing {
    size: 16,
    checksum: 0x685b_2d6c,
    tail: 0,
    ..KNOWN
};

// The put of a key by opener 1, for ever.
fn put(alloc: Global, key: &[u8], value: &[u8]) -> Result<Change, Memory>
    ensures { IfOk result (λ change. change ≡ record { maker = 1; act = Put key.now value.now 0 }) }
{
    Ok(Change {
        maker: 1,
        act: Act::Put {
            key: Bytes::copy_of(alloc, key)?,
            value: Bytes::copy_of(alloc, value)?,
            expiry: 0,
        },
    })
}

// The append of the value 01 64 for the key k.
fn started(alloc: Global) -> Result<RowMaker, Memory>
    ensures { IfOk result (λ maker. maker ≡ appending KNOWN (record { maker = 1; act = Put (codes "k") (1 ∷ codes "d") 0 })) }
{
    start_append(alloc, &KNOWN, put(alloc, b"k", b"\x01d")?)
}

#[test]
fn the_first_store_fills_the_last_word(rt: HostRuntime) -> Result<(), Fail> {
    let maker = started(rt.alloc())?;
    assert_eq!(rt; (maker.events(), maker.room()), (5, 0));
    let first = Next::Store {
        side: Side::Data,
        word: 3,
        value: 0x0163_6261,
    };
    assert_eq!(rt; maker.next(), first);
    Ok(())
}

// 1 byte for the length of the key, the key, 1 for the length of the value, and 81 more make 84.
#[test]
fn an_item_may_fill_the_file_to_its_end(rt: HostRuntime) -> Result<(), Fail> {
    let alloc = rt.alloc();
    let full = Standing {
        size: 4008,
        tail: 0,
        ..KNOWN
    };
    let maker = start_append(alloc, &full, put(alloc, b"b", &[7; 81])?)?;
    assert_eq!(rt; (maker.events(), maker.room()), (24, 0));
    let first = Next::Store {
        side: Side::Data,
        word: 1003,
        value: 0x0751_6201,
    };
    assert_eq!(rt; maker.next(), first);
    Ok(())
}

#[test]
fn a_removal_ends_with_a_length_of_0(rt: HostRuntime) -> Result<(), Fail> {
    let alloc = rt.alloc();
    let act = Act::Remove {
        key: Bytes::copy_of(alloc, b"k")?,
    };
    let even = Standing {
        size: 8,
        tail: 0,
        ..KNOWN
    };
    let maker = start_append(alloc, &even, Change { maker: 1, act })?;
    assert_eq!(rt; maker.events(), 4);
    let first = Next::Store {
        side: Side::Data,
        word: 3,
        value: 0x0000_6b01,
    };
    assert_eq!(rt; maker.next(), first);
    Ok(())
}

// An append to the store of the pair k, abc, whose lock opener 1 holds.
fn appending(alloc: Global) -> Option<(RowMaker, LocalSeat)>
    ensures { IfSome result (λ r. (row : Row) × IsOwing row r.0.events (seat_state r.1)) }
{
    let maker = started(alloc).ok()?;
    let mut seat = opened(alloc, &BODY, &META, &[])?;
    match seat.try_lock(LockKind::Exclusive) {
        Ok(Tried::Taken) => {}
        _ => return None,
    }
    match seat.reserve(maker.events(), maker.room()) {
        Ok(()) => Some((maker, seat)),
        Err(_) => None,
    }
}

// Makes so many of the events, as far as there are any.
fn make<S: Share>(maker: &mut RowMaker, share: &mut S, steps: u32) -> Result<Stored, ShareStop>
    requires { (row : Row) × IsOwing row maker.old.events (S.state share.old) }
    ensures { OnOk result ((row : Row) × IsOwing row maker.new.events (S.state share.new)) }
{
    let mut stored = Stored::More;
    for _ in 0..steps {
        if maker.events() == 0 {
            return Ok(Stored::Done);
        }
        stored = maker.step(share)?;
    }
    Ok(stored)
}

fn standing_of(maker: &RowMaker) -> Option<Standing> {
    if maker.events() > 0 {
        return None;
    }
    Some(maker.standing())
}

#[test]
fn what_is_known_at_the_end_is_not_told_before(rt: HostRuntime) -> Result<(), Fail> {
    let (mut maker, mut seat) = appending(rt.alloc()).expect(&rt, "ample memory");
    assert_eq!(rt; make(&mut maker, &mut seat, 4)?, Stored::More);
    assert_eq!(rt; maker.events(), 1);
    assert_eq!(rt; standing_of(&maker), None);
    assert_eq!(rt; make(&mut maker, &mut seat, 1)?, Stored::Done);
    assert_eq!(rt; standing_of(&maker), Some(AFTER));
    Ok(())
}

// What stands after so many stores and a death.
fn cut(alloc: Global, steps: u32) -> Option<LocalRegion> {
    let (mut maker, mut seat) = appending(alloc)?;
    make(&mut maker, &mut seat, steps).ok()?;
    seat.die(None).ok()?;
    Some(seat.into_region())
}

#[test]
fn the_header_comes_before_the_checksum_which_alone_is_marked(rt: HostRuntime) -> Result<(), Fail> {
    let region = cut(rt.alloc(), 5).expect(&rt, "ample memory");
    let seen = seen_in(rt.alloc(), &region)?;
    let want = [
        None,
        Some((1, Side::Data, 3, 0x0163_6261, false)),
        Some((1, Side::Data, 4, 0x6401_026b, false)),
        Some((1, Side::Data, 0, 16, false)),
        Some((1, Side::Meta, 0, 0x685b_2d6c, true)),
        Some((1, Side::Meta, 7, 16, false)),
        None,
    ];
    assert_eq!(rt; seen.as_slice(), want.as_slice());
    Ok(())
}

#[test]
fn the_change_counts_from_its_checksum_on(rt: HostRuntime) -> Result<(), Fail> {
    for (steps, want) in [(3, 0), (4, 1), (5, 1)] {
        let region = cut(rt.alloc(), steps).expect(&rt, "ample memory");
        let changes = region.changes(rt.alloc())?;
        assert_eq!(rt; changes.as_slice().len(), want, "after {steps}");
        for change in changes.as_slice() {
            assert_eq!(rt; change.maker, 1);
            assert!(rt; puts_this(&change.act), "after {steps}");
        }
    }
    Ok(())
}

// Whether it puts the value 01 64 for the key k, for ever.
fn puts_this(act: &Act) -> bool {
    match act {
        Act::Put { key, value, expiry } => {
            key.as_slice() == b"k".as_slice()
                && value.as_slice() == b"\x01d".as_slice()
                && *expiry == 0
        }
        _ => false,
    }
}

#[test]
fn a_death_leaves_the_stores_before_it(rt: HostRuntime) {
    let marked =
        b"\x6c\x2d\x5b\x68\x03\0\0\0\x01\0\0\0\0\0\0\0\0\0\0\0\0\0\0\0\0\0\0\0\x0b\0\0\0\x04\0\0\0\xd1\x85\x99\x4c";
    let sized =
        b"\x6c\x2d\x5b\x68\x03\0\0\0\x01\0\0\0\0\0\0\0\0\0\0\0\0\0\0\0\0\0\0\0\x10\0\0\0\x04\0\0\0\xd1\x85\x99\x4c";
    let rows: [(u32, &[u8], &[u8]); 6] = [
        (
            0,
            b"\x0b\0\0\0\xff\xff\xff\x07\x01k\x04\x03abc\0\0\0\0\0\0\0\0\0",
            &META,
        ),
        (
            1,
            b"\x0b\0\0\0\xff\xff\xff\x07\x01k\x04\x03abc\x01\0\0\0\0\0\0\0\0",
            &META,
        ),
        (
            2,
            b"\x0b\0\0\0\xff\xff\xff\x07\x01k\x04\x03abc\x01k\x02\x01d\0\0\0\0",
            &META,
        ),
        (
            3,
            b"\x10\0\0\0\xff\xff\xff\x07\x01k\x04\x03abc\x01k\x02\x01d\0\0\0\0",
            &META,
        ),
        (
            4,
            b"\x10\0\0\0\xff\xff\xff\x07\x01k\x04\x03abc\x01k\x02\x01d\0\0\0\0",
            marked,
        ),
        (
            5,
            b"\x10\0\0\0\xff\xff\xff\x07\x01k\x04\x03abc\x01k\x02\x01d\0\0\0\0",
            sized,
        ),
    ];
    for (steps, data, meta) in rows {
        let region = cut(rt.alloc(), steps).expect(&rt, "ample memory");
        assert_eq!(rt; region.data_bytes().get(..24), Some(data), "after {steps}");
        assert_eq!(rt; region.meta_bytes().get(..40), Some(meta), "after {steps}");
        assert_eq!(rt; region.journal().len() as u64, 2 + u64::from(steps));
    }
}
