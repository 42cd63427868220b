// Two shares of one pair of real files, and files that change underneath.
use crate::folder::{Folder, part};
use crate::under_lock::{change, grow, load_all, lock, look, store_all};
use lock_rules::{LockKind, Tried};
use region_words::{Share, ShareStop, Side};
use std::test::Fail;

#[test]
fn who_holds_exclusive_keeps_all_others_out(rt: HostRuntime) -> Result<(), Fail> {
    let folder = Folder::new(&rt, "exclusive")?;
    let mut one = folder.share(&rt)?;
    let mut two = folder.share(&rt)?;
    assert!(rt; lock(&mut one, LockKind::Exclusive));
    assert_eq!(rt; two.try_lock(LockKind::Shared), Ok(Tried::Busy(0)));
    assert_eq!(rt; two.try_lock(LockKind::Exclusive), Ok(Tried::Busy(0)));
    assert_eq!(rt; one.unlock(), Ok(()));
    assert_eq!(rt; two.try_lock(LockKind::Exclusive), Ok(Tried::Taken));
    folder.clear(&rt)?;
    Ok(())
}

#[test]
fn many_hold_shared_and_keep_out_who_asks_for_exclusive(rt: HostRuntime) -> Result<(), Fail> {
    let folder = Folder::new(&rt, "shared")?;
    let mut one = folder.share(&rt)?;
    let mut two = folder.share(&rt)?;
    let mut three = folder.share(&rt)?;
    assert!(rt; lock(&mut one, LockKind::Shared));
    assert!(rt; lock(&mut two, LockKind::Shared));
    assert_eq!(rt; three.try_lock(LockKind::Exclusive), Ok(Tried::Busy(0)));
    assert_eq!(rt; one.die(None), Ok(()));
    assert_eq!(rt; two.unlock(), Ok(()));
    assert_eq!(rt; three.try_lock(LockKind::Exclusive), Ok(Tried::Taken));
    folder.clear(&rt)?;
    Ok(())
}

#[test]
fn the_next_holder_finds_what_was_stored(rt: HostRuntime) -> Result<(), Fail> {
    let folder = Folder::new(&rt, "stored")?;
    let mut one = folder.share(&rt)?;
    let mut two = folder.share(&rt)?;
    let stores = [(Side::Data, 1, 0x0403_0201), (Side::Meta, 2, 9)];
    assert_eq!(rt; change(&mut one, &stores), Ok(()));
    assert_eq!(rt; two.peek_sequence(), Ok(9));
    assert_eq!(rt; look(&mut two, Side::Data, 1), Ok(0x0403_0201));
    let (data, meta) = folder.bytes(&rt)?;
    assert_eq!(rt; part(&data, 3, 9), b"\0\x01\x02\x03\x04\0".as_slice());
    assert_eq!(rt; part(&meta, 7, 13), b"\0\x09\0\0\0\0".as_slice());
    folder.clear(&rt)?;
    Ok(())
}

#[test]
fn a_growth_is_in_the_file_at_once(rt: HostRuntime) -> Result<(), Fail> {
    let folder = Folder::new(&rt, "grown")?;
    let mut share = folder.share(&rt)?;
    assert!(rt; lock(&mut share, LockKind::Exclusive));
    assert!(rt; store_all(&mut share, &[(Side::Data, 1023, 7)]).is_ok());
    assert!(rt; grow(&mut share, 8192).is_ok());
    let (data, _) = folder.bytes(&rt)?;
    assert_eq!(rt; data.len(), 8192);
    assert_eq!(rt; part(&data, 4092, 4097), [7, 0, 0, 0, 0].as_slice());
    folder.clear(&rt)?;
    Ok(())
}

#[test]
fn a_file_that_shrinks_is_a_fault_and_the_lock_is_free(rt: HostRuntime) -> Result<(), Fail> {
    let folder = Folder::new(&rt, "shrunk")?;
    let mut one = folder.share(&rt)?;
    let mut two = folder.share(&rt)?;
    assert!(rt; lock(&mut one, LockKind::Exclusive));
    folder.set_length(&rt, 100)?;
    let words = load_all(rt.alloc(), &mut one, Side::Data, 0, 30);
    assert_eq!(rt; words.err(), Some(ShareStop::Failed));
    // it is filled up again under the next lock
    assert!(rt; lock(&mut two, LockKind::Exclusive));
    assert_eq!(rt; two.size(), Ok(4096));
    folder.set_length(&rt, 0)?;
    assert_eq!(rt; two.size(), Err(ShareStop::Failed));
    folder.clear(&rt)?;
    Ok(())
}
