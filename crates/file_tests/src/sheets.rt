// Which reads and writes a share makes, that it goes on where one moves a part of the bytes or is interrupted, and what
// stands in the files where one fails.
ghost use Rattle.std.specs.Prelude.{◌≡◌, IfOk};
ghost use Rattle.file_region.specs.Shares.{fresh};

use crate::sheet::{Desk, Moved, Sheet};
use crate::under_lock::{change, grow, load_all, lock, look, store_all};
use file_region::FileShare;
use lock_rules::LockKind;
use region_words::{Share, ShareStop, Side, TornStore};
use std::alloc::{AllocError, Global};
use std::io;
use std::test::Fail;

fn share_of(alloc: Global, desk: &Desk) -> Result<FileShare<Sheet<'_>>, AllocError>
    ensures { IfOk result (λ share. share.ledger ≡ fresh) }
{
    FileShare::new(alloc, desk.sheet(Side::Data), desk.sheet(Side::Meta))
}

#[test]
fn under_a_lock_the_words_of_a_window_are_one_read(rt: HostRuntime) -> Result<(), Fail> {
    let alloc = rt.alloc();
    let desk = Desk::new(alloc, 20)?;
    let mut share = share_of(alloc, &desk)?;
    assert!(rt; lock(&mut share, LockKind::Shared));
    assert!(rt; load_all(alloc, &mut share, Side::Meta, 0, 28).is_ok());
    assert!(rt; load_all(alloc, &mut share, Side::Data, 0, 16_385).is_ok());
    let reads = [
        Moved::Read(Side::Meta, 0, 4096),
        Moved::Read(Side::Data, 0, 65_536),
        Moved::Read(Side::Data, 65_536, 65_536),
        // at the end of the file
        Moved::Read(Side::Data, 81_920, 49_152),
    ];
    assert_eq!(rt; desk.take_moved(alloc).as_slice(), reads.as_slice());
    Ok(())
}

// The word that a share finds in a file of such bytes, after it has found another there.
fn found_anew(alloc: Global, bytes: u8) -> io::Result<Option<u32>> {
    let desk = Desk::new(alloc, 2)?;
    let mut share = share_of(alloc, &desk)?;
    let Ok(_) = look(&mut share, Side::Data, 3) else {
        return Ok(None);
    };
    let _ = desk.data.try_replace(vec![in alloc; bytes; 8192]?);
    Ok(look(&mut share, Side::Data, 3).ok())
}

#[test]
fn a_window_is_dropped_with_the_lock(rt: HostRuntime) -> Result<(), Fail> {
    assert_eq!(rt; found_anew(rt.alloc(), 7)?, Some(0x0707_0707));
    Ok(())
}

#[test]
fn without_a_lock_a_word_is_read_each_time(rt: HostRuntime) -> Result<(), Fail> {
    let alloc = rt.alloc();
    let desk = Desk::new(alloc, 2)?;
    let mut share = share_of(alloc, &desk)?;
    assert!(rt; load_all(alloc, &mut share, Side::Data, 5, 2).is_ok());
    assert!(rt; share.peek_checksum().is_ok());
    assert!(rt; share.peek_sequence().is_ok());
    let reads = [
        Moved::Read(Side::Data, 20, 4),
        Moved::Read(Side::Data, 24, 4),
        Moved::Read(Side::Meta, 0, 4),
        Moved::Read(Side::Meta, 8, 4),
    ];
    assert_eq!(rt; desk.take_moved(alloc).as_slice(), reads.as_slice());
    Ok(())
}

// Two runs of neighbours, words of the meta file, and the header.
const STORES: [(Side, u32, u32); 9] = [
    (Side::Data, 5, 0x0101_0101),
    (Side::Data, 6, 0x0202_0202),
    (Side::Data, 7, 0x0303_0303),
    (Side::Meta, 2, 0x0404_0404),
    (Side::Data, 7, 0x0505_0505),
    (Side::Data, 8, 0x0606_0606),
    (Side::Data, 6, 0x0707_0707),
    (Side::Data, 0, 0x0808_0808),
    (Side::Data, 9, 0x0909_0909),
];

#[test]
fn neighbours_are_one_write_before_the_next_other_store(rt: HostRuntime) -> Result<(), Fail> {
    let alloc = rt.alloc();
    let desk = Desk::new(alloc, 1)?;
    let mut share = share_of(alloc, &desk)?;
    assert_eq!(rt; change(&mut share, &STORES), Ok(()));
    let writes = [
        Moved::Write(Side::Data, 20, 12),
        Moved::Write(Side::Meta, 8, 4),
        Moved::Write(Side::Data, 28, 8),
        Moved::Write(Side::Data, 24, 4),
        Moved::Write(Side::Data, 0, 4),
        Moved::Write(Side::Data, 36, 4),
    ];
    assert_eq!(rt; desk.take_moved(alloc).as_slice(), writes.as_slice());
    Ok(())
}

// The files after the first so many stores.
fn files_after(alloc: Global, stores: usize) -> io::Result<(Vec<u8>, Vec<u8>)> {
    let mut data = vec![in alloc; 0u8; 4096]?;
    let mut meta = vec![in alloc; 0u8; 4096]?;
    for (side, word, value) in STORES.iter().take(stores) {
        let bytes = match side {
            Side::Data => &mut data,
            Side::Meta => &mut meta,
        };
        let place = 4 * *word as usize;
        if place + 4 <= bytes.len() {
            bytes[place..place + 4].copy_from_slice(&value.to_le_bytes());
        }
    }
    Ok((data, meta))
}

// Whether the files are those after this number of stores, which are made a few bytes at a time and with room for so
// many writes.
fn stops_after(alloc: Global, room: u32, stores: usize) -> io::Result<bool> {
    let desk = Desk::new(alloc, 1)?;
    desk.most.set(4);
    desk.room.set(room);
    let mut share = share_of(alloc, &desk)?;
    let ends = change(&mut share, &STORES);
    let (data, meta) = files_after(alloc, stores)?;
    let stood = desk
        .data
        .try_replace(Vec::new(alloc))
        .is_ok_and(|now| now == data)
        && desk
            .meta
            .try_replace(Vec::new(alloc))
            .is_ok_and(|now| now == meta);
    Ok(stood && ends.is_ok() == (stores == STORES.len()) && !desk.is_locked.get())
}

#[test]
fn on_a_full_disk_the_files_hold_a_front_of_the_stores(rt: HostRuntime) -> Result<(), Fail> {
    for stores in 0..=STORES.len() {
        let stops = stops_after(rt.alloc(), stores as u32, stores)?;
        assert!(rt; stops, "after {stores}");
    }
    Ok(())
}

// The words around a run that was stored, on files of which a call moves three bytes at most and the next calls are
// interrupted so often.
fn stored_in_parts(alloc: Global, interrupts: u32) -> io::Result<Result<u32, ShareStop>> {
    let desk = Desk::new(alloc, 1)?;
    desk.most.set(3);
    desk.interrupts.set(interrupts);
    let mut share = share_of(alloc, &desk)?;
    if let Err(stop) = change(&mut share, &STORES) {
        return Ok(Err(stop));
    }
    Ok(look(&mut share, Side::Data, 6))
}

#[test]
fn parts_and_interruptions_are_gone_on_from(rt: HostRuntime) -> Result<(), Fail> {
    let alloc = rt.alloc();
    assert_eq!(rt; stored_in_parts(alloc, 999)?, Ok(0x0707_0707));
    assert_eq!(rt; stored_in_parts(alloc, 1_000)?, Err(ShareStop::Failed));
    Ok(())
}

#[test]
fn what_is_stored_is_loaded(rt: HostRuntime) -> Result<(), Fail> {
    let alloc = rt.alloc();
    let desk = Desk::new(alloc, 1)?;
    let mut share = share_of(alloc, &desk)?;
    assert!(rt; lock(&mut share, LockKind::Exclusive));
    let before = load_all(alloc, &mut share, Side::Data, 5, 5);
    assert!(rt; before.is_ok_and(|words| words.as_slice() == [0; 5].as_slice()));
    assert!(rt; store_all(&mut share, &STORES).is_ok());
    let now = [
        0x0101_0101,
        0x0707_0707,
        0x0505_0505,
        0x0606_0606,
        0x0909_0909,
    ];
    let after = load_all(alloc, &mut share, Side::Data, 5, 5);
    assert!(rt; after.is_ok_and(|words| words.as_slice() == now.as_slice()));
    Ok(())
}

#[test]
fn a_growth_adds_zeros_behind_what_is_stored(rt: HostRuntime) -> Result<(), Fail> {
    let alloc = rt.alloc();
    let desk = Desk::new(alloc, 1)?;
    let mut share = share_of(alloc, &desk)?;
    assert!(rt; lock(&mut share, LockKind::Exclusive));
    assert!(rt; store_all(&mut share, &[(Side::Data, 1023, 7)]).is_ok());
    assert!(rt; grow(&mut share, 16_384).is_ok());
    let words = load_all(alloc, &mut share, Side::Data, 1023, 2);
    assert!(rt; words.is_ok_and(|words| words.as_slice() == [7, 0].as_slice()));
    assert_eq!(rt; share.size(), Ok(16_384));
    Ok(())
}

#[test]
fn a_death_may_tear_a_word(rt: HostRuntime) -> Result<(), Fail> {
    let alloc = rt.alloc();
    let desk = Desk::new(alloc, 1)?;
    let mut share = share_of(alloc, &desk)?;
    assert!(rt; lock(&mut share, LockKind::Exclusive));
    assert!(rt; store_all(&mut share, &[(Side::Data, 3, 0x4433_2211)]).is_ok());
    let store = TornStore {
        word: 3,
        new: 0x4400_2200,
        bits: 0xaabb_ccdd,
    };
    assert_eq!(rt; share.die(Some(store)), Ok(()));
    assert!(rt; !desk.is_locked.get());
    let torn = desk.data.try_replace(Vec::new(alloc)).ok();
    let torn = torn.as_ref().and_then(|data| data.get(12..16));
    assert_eq!(rt; torn, Some([0xdd, 0x22, 0xbb, 0x44].as_slice()));
    Ok(())
}
