// A directory's store, brought beside a share that works on it.
use crate::folder::{Folder, part};
use crate::under_lock::{lock, store_all};
use expiring_map::Bytes;
use file_region::DirShelf;
use lock_rules::LockKind;
use region_words::{Share, Shelf, Side, is_id};
use std::test::Fail;

#[test]
fn a_store_is_brought_whoever_holds_its_lock(rt: HostRuntime) -> Result<(), Fail> {
    let folder = Folder::new(&rt, "brought")?;
    let path = Bytes::copy_of(rt.alloc(), folder.path.as_bytes())?;
    let mut shelf = DirShelf::new(&rt, path);
    let mut share = folder.share(&rt)?;
    assert!(rt; is_id(b"s"));
    assert!(rt; lock(&mut share, LockKind::Exclusive));
    assert!(rt; store_all(&mut share, &[(Side::Data, 1, 7), (Side::Meta, 2, 9)]).is_ok());
    let held = shelf.bring(b"s").expect(&rt, "a store");
    assert_eq!(rt; part(held.body.as_slice(), 3, 6), b"\0\x07\0".as_slice());
    assert_eq!(rt; part(held.meta.as_slice(), 7, 10), b"\0\x09\0".as_slice());
    assert_eq!(rt; share.unlock(), Ok(()));
    assert!(rt; shelf.bring(b"s").is_ok());
    assert!(rt; lock(&mut share, LockKind::Exclusive));
    folder.clear(&rt)?;
    Ok(())
}
