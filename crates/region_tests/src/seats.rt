// Calls on a region in memory through a seat.
ghost use Rattle.std.specs.Prelude.{◌≡◌, ◌<◌, false, Some, IfSome};
ghost use Rattle.region_words.specs.Share.{MayMake, MayTearAt};
ghost use Rattle.region_words.specs.Local.{seat_state};

use lock_rules::{LockKind, Tried};
use region_words::{
    LocalRegion, LocalSeat, Mark, Peek, RegionStop, Share, ShareStop, Side, TornStore, What,
};
use std::alloc::Global;
use test_support::{BODY, META, opened};

fn holder(alloc: Global) -> Option<LocalSeat>
    ensures alive { IfSome result (λ s. (seat_state s).ended ≡ false) }
    ensures held { IfSome result (λ s. (seat_state s).holds ≡ Some LockKind.Exclusive) }
    ensures rests { IfSome result (λ s. MayMake What.Unlock (seat_state s)) }
{
    let mut seat = opened(alloc, b"", b"", &[])?;
    match seat.try_lock(LockKind::Exclusive) {
        Ok(Tried::Taken) => Some(seat),
        _ => None,
    }
}

// Word 3 of the data file, of which a share has the first page.
fn word_3<S: Share>(share: &mut S) -> Result<u32, ShareStop>
    requires { (S.state share.old).ended ≡ false }
{
    let _ = share.who();
    share.load(Side::Data, 3)
}

#[test]
fn a_word_is_loaded_from_its_place(rt: HostRuntime) {
    let mut seat = opened(rt.alloc(), &BODY, b"", &[]).expect(&rt, "ample memory");
    assert_eq!(rt; word_3(&mut seat), Ok(u32::from_le_bytes(*b"abc\0")));
}

#[test]
fn an_unlock_is_noted_and_frees_the_lock(rt: HostRuntime) {
    let mut seat = holder(rt.alloc()).expect(&rt, "ample memory");
    assert_eq!(rt; seat.unlock(), Ok(()));
    assert_eq!(rt; seat.try_lock(LockKind::Shared), Ok(Tried::Taken));
    assert_eq!(rt; seat.region().journal().len(), 3);
}

// Opener 1 holds the lock of a store whose header alone agrees, and has a place for one store.
fn repairing(alloc: Global) -> Option<LocalSeat>
    ensures alive { IfSome result (λ s. (seat_state s).ended ≡ false) }
    ensures held { IfSome result (λ s. (seat_state s).holds ≡ Some LockKind.Exclusive) }
    ensures place { IfSome result (λ s. 0 < (seat_state s).reserved s.who) }
    ensures row { IfSome result (λ s. MayMake (What.Store Side.Meta 7 11 Mark.Plain) (seat_state s)) }
{
    let mut seat = opened(
        alloc,
        &BODY,
        b"\xd3\x95\x65\x3a\x03\0\0\0\x01\0\0\0\0\0\0\0\0\0\0\0\0\0\0\0\0\0\0\0\x04\0\0\0\x04\0\0\0\xd1\x85\x99\x4c",
        &[],
    )?;
    match seat.try_lock(LockKind::Exclusive) {
        Ok(Tried::Taken) => {}
        _ => return None,
    }
    match seat.reserve(1, 0) {
        Ok(()) => Some(seat),
        Err(_) => None,
    }
}

// Opener 1 holds the lock of a store with the pair k, abc, and may die within the first store of an append.
fn appending(alloc: Global) -> Option<LocalSeat>
    ensures alive { IfSome result (λ s. (seat_state s).ended ≡ false) }
    ensures tears { IfSome result (λ s. MayTearAt (Some (record { word = 3; new = 0x01636261; bits = 0xffffffff })) (seat_state s)) }
{
    let mut seat = opened(alloc, &BODY, &META, &[])?;
    match seat.try_lock(LockKind::Exclusive) {
        Ok(Tried::Taken) => Some(seat),
        _ => None,
    }
}

#[test]
fn a_torn_death_keeps_the_bytes_that_would_not_change(rt: HostRuntime) {
    let mut seat = appending(rt.alloc()).expect(&rt, "ample memory");
    let torn = TornStore {
        word: 3,
        new: u32::from_le_bytes(*b"abc\x01"),
        bits: u32::MAX,
    };
    assert_eq!(rt; seat.die(Some(torn)), Ok(()));
    let region = seat.into_region();
    assert_eq!(rt;
        region.data_bytes().get(8..20),
        Some(b"\x01k\x04\x03abc\xff\0\0\0\0".as_slice())
    );
    assert_eq!(rt; region.journal().len(), 2);
}

#[test]
fn a_store_is_noted_and_changes_its_word_alone(rt: HostRuntime) {
    let mut seat = repairing(rt.alloc()).expect(&rt, "ample memory");
    assert_eq!(rt; seat.store(Side::Meta, 7, 11, Mark::Plain).is_ok(), true);
    let region = seat.into_region();
    assert_eq!(rt; region.journal().len(), 2);
    let meta = region.meta_bytes();
    assert_eq!(rt; meta.get(28..36), Some(b"\x0b\0\0\0\x04\0\0\0".as_slice()));
}

#[test]
fn a_full_journal_reserves_nothing(rt: HostRuntime) {
    let mut seat = holder(rt.alloc()).expect(&rt, "ample memory");
    assert_eq!(rt; seat.reserve(4_194_302, 0), Err(ShareStop::JournalFull));
    assert_eq!(rt; seat.reserve(2, 8192), Ok(()));
}

#[test]
fn a_fresh_region_is_a_page_of_zeros(rt: HostRuntime) {
    let mut seat = holder(rt.alloc()).expect(&rt, "ample memory");
    assert_eq!(rt; seat.size(), Ok(4096));
    assert_eq!(rt;
        seat.peek_checksum(),
        Ok(Peek {
            checksum: 0,
            changes: 0
        })
    );
    assert_eq!(rt; seat.peek_sequence(), Ok(0));
}

#[test]
fn a_listed_call_is_a_death(rt: HostRuntime) {
    let mut seat = opened(rt.alloc(), b"", b"", &[1]).expect(&rt, "ample memory");
    assert_eq!(rt; seat.try_lock(LockKind::Shared), Ok(Tried::Taken));
    assert_eq!(rt; seat.size(), Err(ShareStop::Failed));
    assert_eq!(rt; seat.region().journal().len(), 2);
}

#[test]
fn a_death_is_noted(rt: HostRuntime) {
    let mut seat = holder(rt.alloc()).expect(&rt, "ample memory");
    assert_eq!(rt; seat.die(None), Ok(()));
    let region = seat.into_region();
    assert_eq!(rt; region.journal().len(), 2);
    let changes = region.changes(rt.alloc()).expect(&rt, "ample memory");
    assert_eq!(rt; changes.as_slice().len(), 0);
    let (body, meta) = region.into_bytes();
    assert_eq!(rt; (body.len(), meta.len()), (4096, 4096));
}

#[test]
fn a_file_over_its_limit_is_refused(rt: HostRuntime) {
    let alloc = rt.alloc();
    let meta = vec![in alloc; 0u8; 65_537].expect(&rt, "ample memory");
    let refused = LocalRegion::new(alloc, Vec::new(alloc), meta).err();
    assert_eq!(rt; refused, Some(RegionStop::SizeRefused(65_537)));
}
