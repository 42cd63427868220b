// Loads of a few regions, by single steps.
ghost use Rattle.std.specs.Prelude.{◌≡◌, ◌≢◌, false, None, IfOk, IfSome};
ghost use Rattle.loader.specs.PartialLoads.{IsSoundImage};
ghost use Rattle.region_words.specs.Local.{seat_state};

use loader::{LoadStop, Loaded, Loading, Went};
use lock_rules::{LockKind, Tried};
use meta_record::{
    Damage, RecordFault, Shown, WORD_CHECKSUM, WORD_FLAGS_LOW, WORD_LAST_CHECKSUM, WORD_LAST_SIZE,
    WORD_SEQUENCE, WORD_SIZE, WORD_VERSION, store_word,
};
use region_words::{LocalSeat, Share, ShareStop, Standing};
use std::alloc::Global;
use std::test::Fail;
use test_support::{BODY, opened};

// The checksums of the store's payload and of its first four bytes, from zlib.
pub(crate) const CRC: u32 = 0x3a65_95d3;

const CRC_OF_4: u32 = 0x4c99_85d1;

// Its record, with a few words changed.
pub(crate) fn meta_with(changes: &[(usize, u32)]) -> [u8; 112] {
    let mut meta = [0; 112];
    for (word, value) in [
        (WORD_CHECKSUM, CRC),
        (WORD_VERSION, 3),
        (WORD_SEQUENCE, 1),
        (WORD_SIZE, 11),
        (WORD_LAST_SIZE, 4),
        (WORD_LAST_CHECKSUM, CRC_OF_4),
    ] {
        store_word(&mut meta, word, value);
    }
    for (word, value) in changes {
        if *word < 28 {
            store_word(&mut meta, *word, *value);
        }
    }
    meta
}

// A seat at a region of these files that holds the lock. Its calls after that fail at the listed numbers, from 1 on.
pub(crate) fn holder(
    alloc: Global,
    body: &[u8],
    meta: &[u8],
    kind: LockKind,
    fails: &[u64],
) -> Option<LocalSeat>
    ensures alive { IfSome result (λ s. (seat_state s).ended ≡ false) }
    ensures held { IfSome result (λ s. (seat_state s).holds ≢ None) }
{
    let mut seat = opened(alloc, body, meta, fails)?;
    match seat.try_lock(kind) {
        Ok(Tried::Taken) => Some(seat),
        _ => None,
    }
}

// A whole load, and the loads that were made; another share is used by the same clauses.
pub(crate) fn load_all<S: Share>(alloc: Global, share: &mut S) -> (Result<Loaded, LoadStop>, u32)
    requires alive { (S.state share.old).ended ≡ false }
    requires lock { (S.state share.old).holds ≢ None }
    ensures { IfOk result.0 (λ loaded. IsSoundImage loaded.image) }
{
    let mut loading = Loading::full(alloc);
    let mut made = 0;
    loop {
        match loading.step(share) {
            Ok(went) => {
                made += 1;
                if went == Went::Done {
                    return (Ok(loading.finish()), made);
                }
            }
            Err(stop) => return (Err(stop), made),
        }
    }
}

fn load_of(
    alloc: Global,
    body: &[u8],
    meta: &[u8],
    kind: LockKind,
    fails: &[u64],
) -> Option<(Result<Loaded, LoadStop>, u32)> {
    let mut seat = holder(alloc, body, meta, kind, fails)?;
    Some(load_all(alloc, &mut seat))
}

fn shown_of(alloc: Global, body: &[u8], meta: &[u8]) -> Option<(Result<Shown, LoadStop>, u32)> {
    let (result, made) = load_of(alloc, body, meta, LockKind::Exclusive, &[])?;
    match result {
        Ok(loaded) => Some((Ok(loaded.shown), made)),
        Err(stop) => Some((Err(stop), made)),
    }
}

#[test]
fn the_first_image_that_agrees_is_shown_after_its_loads(rt: HostRuntime) {
    let rows = [
        (meta_with(&[]), Shown::Whole(11), 13),
        (meta_with(&[(WORD_SIZE, 4)]), Shown::Header(11), 13),
        (meta_with(&[(WORD_SIZE, 4092)]), Shown::Header(11), 1033),
        (meta_with(&[(WORD_SIZE, 4093)]), Shown::Header(11), 13),
        (meta_with(&[(WORD_CHECKSUM, 1)]), Shown::Last(4), 13),
        (
            meta_with(&[(WORD_CHECKSUM, 0), (WORD_SIZE, 0)]),
            Shown::Whole(0),
            10,
        ),
    ];
    for (meta, shown, loads) in rows {
        assert_eq!(rt;
            shown_of(rt.alloc(), &BODY, &meta),
            Some((Ok(shown), loads))
        );
    }
    assert_eq!(rt;
        shown_of(rt.alloc(), &[], &[]),
        Some((Ok(Shown::Whole(0)), 10))
    );
}

#[test]
fn damage_is_shown_of_each_kind(rt: HostRuntime) {
    let cut = b"\x0a\0\0\0\xff\xff\xff\x07\x01k\x04\x03ab";
    let long = b"\xff\xff\xff\xff\xff\xff\xff\x07";
    let rows: [(&[u8], _, _, _); 4] = [
        (
            &BODY,
            meta_with(&[(WORD_CHECKSUM, 1), (WORD_LAST_CHECKSUM, 1)]),
            Damage::Checksum,
            13,
        ),
        (
            long,
            meta_with(&[(WORD_SIZE, u32::MAX), (WORD_LAST_CHECKSUM, 1)]),
            Damage::Length,
            11,
        ),
        (
            cut,
            meta_with(&[(WORD_SIZE, 10), (WORD_CHECKSUM, 0xdfae_6d24)]),
            Damage::Content,
            13,
        ),
        (
            &BODY,
            meta_with(&[(WORD_VERSION, 4), (WORD_FLAGS_LOW, 1)]),
            Damage::Content,
            13,
        ),
    ];
    for (body, meta, damage, loads) in rows {
        let shown = Ok(Shown::Damaged(damage));
        assert_eq!(rt; shown_of(rt.alloc(), body, &meta), Some((shown, loads)));
    }
}

#[test]
fn a_record_is_refused_by_the_tenth_load(rt: HostRuntime) {
    let rows = [
        (meta_with(&[(WORD_VERSION, 9)]), RecordFault::Version(9)),
        (
            meta_with(&[(WORD_VERSION, 4), (WORD_FLAGS_LOW, 2)]),
            RecordFault::Flags(2),
        ),
    ];
    for (meta, fault) in rows {
        let stop = Err(LoadStop::Record(fault));
        assert_eq!(rt; shown_of(rt.alloc(), &BODY, &meta), Some((stop, 9)));
    }
}

#[test]
fn an_image_comes_with_its_map_under_either_lock(rt: HostRuntime) -> Result<(), Fail> {
    let standing = Standing {
        sequence: 1,
        version: 3,
        flag: false,
        size: 11,
        checksum: CRC,
        tail: 0x0063_6261,
        file_size: 4096,
    };
    for kind in [LockKind::Shared, LockKind::Exclusive] {
        let found = load_of(rt.alloc(), &BODY, &meta_with(&[]), kind, &[]);
        let (result, _) = found.expect(&rt, "ample memory");
        let loaded = result.expect(&rt, "an image");
        assert_eq!(rt; loaded.image.standing, standing);
        assert_eq!(rt; (loaded.header, loaded.rec.last_checksum), (11, CRC_OF_4));
        assert_eq!(rt;
            loaded.payload.as_slice(),
            b"\xff\xff\xff\x07\x01k\x04\x03abc\0".as_slice()
        );
        let pairs = loaded.image.map.pairs()?;
        assert_eq!(rt; pairs.as_slice().len(), 1);
        let pair = pairs.as_slice().first().expect(&rt, "a pair");
        assert_eq!(rt; pair.key.as_slice(), b"k".as_slice());
        assert_eq!(rt; pair.value.as_slice(), b"\x03abc".as_slice());
        assert_eq!(rt; pair.expiry, 0);
    }
    Ok(())
}

#[test]
fn the_last_confirmed_image_has_the_pairs_of_its_size(rt: HostRuntime) {
    let body = b"\x14\0\0\0\xff\xff\xff\x07\x01a\x01\x01\x01b\x01\x02\x01c\x01\x05\x01c\x01\x06";
    let meta = meta_with(&[
        (WORD_SIZE, 20),
        (WORD_LAST_SIZE, 12),
        (WORD_LAST_CHECKSUM, 0xc17c_0be1),
    ]);
    let found = load_of(rt.alloc(), body, &meta, LockKind::Shared, &[]);
    let (result, made) = found.expect(&rt, "ample memory");
    let loaded = result.expect(&rt, "an image");
    assert_eq!(rt; (loaded.shown, made), (Shown::Last(12), 15));
    let Standing {
        size,
        checksum,
        tail,
        ..
    } = loaded.image.standing;
    assert_eq!(rt; (size, checksum, tail), (12, 0xc17c_0be1, 0));
    let map = loaded.image.map;
    assert_eq!(rt; map.len(), 2);
    for (key, want) in [(b"a", b"\x01"), (b"b", b"\x02")] {
        let value = map.value_at(key, 0).expect(&rt, "a value");
        assert_eq!(rt; value, want.as_slice());
    }
}

#[test]
fn a_damaged_region_has_an_empty_image(rt: HostRuntime) {
    let meta = meta_with(&[(WORD_CHECKSUM, 1), (WORD_LAST_CHECKSUM, 1)]);
    let found = load_of(rt.alloc(), &BODY, &meta, LockKind::Shared, &[]);
    let (result, _) = found.expect(&rt, "ample memory");
    let loaded = result.expect(&rt, "an image");
    let Standing {
        size,
        checksum,
        tail,
        ..
    } = loaded.image.standing;
    assert_eq!(rt; (size, checksum, tail), (0, 0, 0));
    assert_eq!(rt; loaded.image.map.len(), 0);
}

#[test]
fn a_load_that_fails_is_the_last(rt: HostRuntime) {
    for load in 1..14u64 {
        let found = load_of(
            rt.alloc(),
            &BODY,
            &meta_with(&[]),
            LockKind::Shared,
            &[load],
        );
        let (result, made) = found.expect(&rt, "ample memory");
        assert_eq!(rt; result.err(), Some(LoadStop::Share(ShareStop::Failed)));
        assert_eq!(rt; made as u64 + 1, load);
    }
}
