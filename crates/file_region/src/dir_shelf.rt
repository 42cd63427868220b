// The stores of a directory, as a shelf.
ghost use Rattle.std.specs.Prelude.{◌≡◌, ◌≢◌, ℕ, ◌≤◌, ◌∷◌, ◌++◌, Ok, Err, None, length, OnOk, IfOk, IfErr, IfSome, IsOk};
ghost use Rattle.region_words.specs.Outside.{Rose, one_more};
ghost use Rattle.region_words.specs.Stores.{Untold};
ghost use Rattle.region_words.specs.declared.shelf.TheConstants.{LARGEST_DATA, LARGEST_META};
ghost use Rattle.file_region.specs.Stopped.{IsStopped};

use crate::placed::read_front;
use crate::shared_file::SharedFile;
use expiring_map::Bytes;
use lock_rules::LockKind;
use region_words::{Brought, LARGEST_DATA, LARGEST_META, Shelf, ShelfStop};
use std::alloc::AllocError;
use std::fs::{Files, OpenFile};
use std::io::{Error, ErrorKind};
use std::{fs, io};

// How often both files are read at most where the lock can't be had.
const MOST_READINGS: u32 = 3;

/// A directory with the two files `ID` and `ID.crc` of each store. It tells nothing of what they hold.
#[derive(Drop)]
pub struct DirShelf<'a, R: Files + AllocGlobal> {
    rt: &'a R,
    directory: Bytes,
    faults: u64,
    absences: u64,
    // How often a file was opened that isn't there, of either kind.
    missing: u64,
}

impl<'a, R: Files + AllocGlobal> DirShelf<'a, R>
where
    R::File: SharedFile,
{
    /// No call has failed on it, and no store was found absent.
    pub fn new(rt: &'a R, directory: Bytes) -> DirShelf<'a, R>
        ensures directory { result.directory ≡ directory }
        ensures faults { result.faults ≡ 0 }
        ensures absences { result.absences ≡ 0 }
        ensures missing { result.missing ≡ 0 }
    {
        DirShelf {
            rt,
            directory,
            faults: 0,
            absences: 0,
            missing: 0,
        }
    }

    fn path_of(&self, id: &[u8], ending: &[u8]) -> Result<Vec<u8>, AllocError>
        ensures { IfOk result (λ path. path.items ≡ self.now.directory ++ (47 ∷ id.now) ++ ending.now) }
    {
        let mut path = self.directory.as_slice().to_vec(self.rt.alloc())?;
        path.push(b'/')?;
        path.extend_from_slice(id)?;
        path.extend_from_slice(ending)?;
        Ok(path)
    }

    fn open(&self, id: &[u8], ending: &[u8]) -> Result<io::Result<R::File>, AllocError> {
        let path = self.path_of(id, ending)?;
        match std::str::from_utf8(&path) {
            Ok(path) => Ok(open_regular(self.rt, path)),
            Err(_) => Ok(Err(Error::from(ErrorKind::InvalidData))),
        }
    }

    // Counts a fault.
    fn fault(&mut self) -> ShelfStop
        ensures stop { result ≡ ShelfStop.Failed }
        ensures counts { self.new ≡ record self.old { faults = one_more self.old.faults } }
        ensures never_falls { self.old.faults ≤ self.new.faults }
    {
        self.faults = self.faults.saturating_add(1);
        ShelfStop::Failed
    }

    // A file that was opened, where there is one, once it has shown itself to be a regular one within its limit.
    fn look_at(
        &mut self,
        opened: io::Result<R::File>,
        limit: usize,
    ) -> Result<Option<R::File>, ShelfStop>
        ensures found { IsOk opened → result ≢ Ok None }
        ensures missing { result ≡ Ok None → Rose self.old.missing self.new.missing }
        ensures stopped { IfErr result (IsStopped limit self.old.faults self.new.faults) }
        ensures steady { OnOk result (self.new.faults ≡ self.old.faults) }
        ensures never_falls { self.old.faults ≤ self.new.faults }
        ensures absences { self.new.absences ≡ self.old.absences }
    {
        match opened {
            Ok(file) => {
                self.size_of(&file, limit)?;
                Ok(Some(file))
            }
            Err(error) if error.kind() == ErrorKind::NotFound => {
                self.missing = self.missing.saturating_add(1);
                Ok(None)
            }
            Err(_) => Err(self.fault()),
        }
    }

    // The length of a regular file within its limit.
    fn size_of(&mut self, file: &R::File, limit: usize) -> Result<usize, ShelfStop>
        ensures within { IfOk result (λ size. size ≤ limit) }
        ensures stopped { IfErr result (IsStopped limit self.old.faults self.new.faults) }
        ensures same { OnOk result (self.new ≡ self.old) }
        ensures never_falls { self.old.faults ≤ self.new.faults }
        ensures absences { self.new.absences ≡ self.old.absences }
    {
        let Ok(metadata) = file.metadata() else {
            return Err(self.fault());
        };
        if !metadata.is_file() {
            return Err(self.fault());
        }
        let size = metadata.len();
        if size > limit as u64 {
            return Err(ShelfStop::SizeRefused(size));
        }
        Ok(size as usize)
    }

    // The bytes of an open file.
    fn read(&mut self, file: &R::File, limit: usize) -> Result<Bytes, ShelfStop>
        ensures within { IfOk result (λ bytes. length bytes ≤ limit) }
        ensures stopped { IfErr result (IsStopped limit self.old.faults self.new.faults) }
        ensures same { OnOk result (self.new ≡ self.old) }
        ensures never_falls { self.old.faults ≤ self.new.faults }
        ensures absences { self.new.absences ≡ self.old.absences }
    {
        let size = self.size_of(file, limit)?;
        let zeros = vec![in self.rt.alloc(); 0u8; size];
        let mut bytes = zeros.map_err(|_| ShelfStop::Memory)?;
        match read_front(file, 0, &mut bytes) {
            Ok(n) if n == size => Ok(Bytes::of_vec(bytes)),
            _ => Err(self.fault()),
        }
    }

    // Both files, under the shared lock where it can be had at once: nobody stores while it is held.
    fn read_both(&mut self, data: &R::File, meta: &R::File) -> Result<Brought, ShelfStop>
        ensures data_size { IfOk result (λ b. length b.body ≤ LARGEST_DATA) }
        ensures meta_size { IfOk result (λ b. length b.meta ≤ LARGEST_META) }
        ensures there { result ≢ Err ShelfStop.Absent }
        ensures failed { result ≡ Err ShelfStop.Failed → Rose self.old.faults self.new.faults }
        ensures steady { result ≢ Err ShelfStop.Failed → self.new.faults ≡ self.old.faults }
        ensures never_falls { self.old.faults ≤ self.new.faults }
        ensures absences { self.new.absences ≡ self.old.absences }
    {
        match meta.ask_lock(LockKind::Shared) {
            Ok(true) => {
                let brought = self.read_once(data, meta);
                let _ = meta.give_up_lock();
                brought
            }
            _ => self.read_until_still(data, meta),
        }
    }

    // Both files, read anew where the meta file isn't as it was before, and three times at most.
    fn read_until_still(&mut self, data: &R::File, meta: &R::File) -> Result<Brought, ShelfStop>
        ensures data_size { IfOk result (λ b. length b.body ≤ LARGEST_DATA) }
        ensures meta_size { IfOk result (λ b. length b.meta ≤ LARGEST_META) }
        ensures there { result ≢ Err ShelfStop.Absent }
        ensures failed { result ≡ Err ShelfStop.Failed → Rose self.old.faults self.new.faults }
        ensures steady { result ≢ Err ShelfStop.Failed → self.new.faults ≡ self.old.faults }
        ensures never_falls { self.old.faults ≤ self.new.faults }
        ensures absences { self.new.absences ≡ self.old.absences }
    {
        let mut before = self.read(meta, LARGEST_META)?;
        for _ in 1..MOST_READINGS {
            let brought = self.read_once(data, meta)?;
            if brought.meta.as_slice() == before.as_slice() {
                return Ok(brought);
            }
            before = brought.meta;
        }
        self.read_once(data, meta)
    }

    fn read_once(&mut self, data: &R::File, meta: &R::File) -> Result<Brought, ShelfStop>
        ensures data_size { IfOk result (λ b. length b.body ≤ LARGEST_DATA) }
        ensures meta_size { IfOk result (λ b. length b.meta ≤ LARGEST_META) }
        ensures there { result ≢ Err ShelfStop.Absent }
        ensures failed { result ≡ Err ShelfStop.Failed → Rose self.old.faults self.new.faults }
        ensures steady { result ≢ Err ShelfStop.Failed → self.new.faults ≡ self.old.faults }
        ensures never_falls { self.old.faults ≤ self.new.faults }
        ensures absences { self.new.absences ≡ self.old.absences }
        ensures same { OnOk result (self.new ≡ self.old) }
    {
        let body = self.read(data, LARGEST_DATA)?;
        let meta = self.read(meta, LARGEST_META)?;
        Ok(Brought { body, meta })
    }
}

// Opens a regular file, behind links or not. Anything else is refused before it is opened, since opening a pipe waits
// for its writer and opening a device may set it going. Only what another process puts in the file's place between the
// two calls is opened all the same: it may wait so long, but what is then open is looked at again before it is read.
fn open_regular<R: Files>(files: &R, path: &str) -> io::Result<R::File> {
    if !fs::metadata(files, path)?.is_file() {
        return Err(Error::from(ErrorKind::InvalidInput));
    }
    fs::open(files, path)
}

impl<R: Files + AllocGlobal> Shelf for DirShelf<'_, R>
where
    R::File: SharedFile,
{
    ghost faults = { λ s. s.faults };

    ghost absences = { λ s. s.absences };

    ghost stores = { λ s id. Untold };

    fn bring(&mut self, id: &[u8]) -> Result<Brought, ShelfStop> {
        let opened = self.open(id, b"").map_err(|_| ShelfStop::Memory)?;
        let Some(data) = self.look_at(opened, LARGEST_DATA)? else {
            self.absences = self.absences.saturating_add(1);
            return Err(ShelfStop::Absent);
        };
        let opened = self.open(id, b".crc").map_err(|_| ShelfStop::Memory)?;
        match self.look_at(opened, LARGEST_META)? {
            Some(meta) => self.read_both(&data, &meta),
            None => Ok(Brought {
                body: self.read(&data, LARGEST_DATA)?,
                meta: Bytes::of_vec(Vec::new(self.rt.alloc())),
            }),
        }
    }
}

#[cfg(test)]
mod tests {
    use super::*;
    use region_words::is_id;
    use std::alloc::{Allocator, Global};
    use std::cell::Cell;
    use std::fs::{Metadata, OpenOptions};
    use std::io::{Empty, Read, Seek, SeekFrom, Write};
    use std::os::unix::fs::FileExt;
    use std::process::Abort;

    fn unsupported<T>() -> io::Result<T> {
        Err(Error::from(ErrorKind::Unsupported))
    }

    // An open file: what it says of itself, if it does, and its bytes. So many of its first reads are interrupted. In so
    // many of its first readings the first byte says how many are to come. Another process may hold its lock.
    #[derive(Drop)]
    struct Sheet {
        says: Says,
        bytes: &'static [u8],
        interrupts: Cell<u32>,
        restless: Cell<u8>,
        is_held: bool,
    }

    #[derive(Clone, Copy)]
    enum Says {
        Length(u64),
        Folder,
        Nothing,
    }

    impl Sheet {
        fn of(says: Says, bytes: &'static [u8]) -> Sheet {
            Sheet {
                says,
                bytes,
                interrupts: Cell::new(0),
                restless: Cell::new(0),
                is_held: false,
            }
        }
    }

    fn metadata_of(says: Says) -> io::Result<Metadata> {
        match says {
            Says::Length(len) => Ok(Metadata::of_file(len)),
            Says::Folder => Ok(Metadata::of_dir()),
            Says::Nothing => unsupported(),
        }
    }

    impl FileExt for Sheet {
        fn read_at(&self, buf: &mut [u8], offset: u64) -> io::Result<usize> {
            if let Some(left) = self.interrupts.get().checked_sub(1) {
                self.interrupts.set(left);
                return Err(Error::from(ErrorKind::Interrupted));
            }
            let rest = self.bytes.get(offset as usize..).unwrap_or(&[]);
            let n = rest.len().min(buf.len());
            buf[..n].copy_from_slice(&rest[..n]);
            let restless = self.restless.get();
            if restless > 0 && n > 0 {
                buf[0] = restless;
                self.restless.set(restless - 1);
            }
            Ok(n)
        }

        fn write_at(&self, _buf: &[u8], _offset: u64) -> io::Result<usize> {
            Err(Error::from(ErrorKind::Unsupported))
        }
    }

    impl SharedFile for Sheet {
        fn ask_lock(&self, kind: LockKind) -> io::Result<bool> {
            Ok(kind == LockKind::Shared && !self.is_held)
        }

        fn give_up_lock(&self) -> io::Result<()> {
            Ok(())
        }
    }

    impl Read for Sheet {
        fn read(&mut self, _buf: &mut [u8]) -> io::Result<usize> {
            Err(Error::from(ErrorKind::Unsupported))
        }
    }

    impl Write for Sheet {
        fn write(&mut self, _buf: &[u8]) -> io::Result<usize> {
            Err(Error::from(ErrorKind::Unsupported))
        }

        fn flush(&mut self) -> io::Result<()> {
            unsupported()
        }
    }

    impl Seek for Sheet {
        fn seek(&mut self, _to: SeekFrom) -> io::Result<u64> {
            unsupported()
        }
    }

    impl OpenFile for Sheet {
        fn metadata(&self) -> io::Result<Metadata> {
            metadata_of(self.says)
        }

        fn set_len(&self, _size: u64) -> io::Result<()> {
            unsupported()
        }

        fn sync_all(&self) -> io::Result<()> {
            unsupported()
        }

        fn sync_data(&self) -> io::Result<()> {
            unsupported()
        }
    }

    fn whole(bytes: &'static [u8]) -> io::Result<Sheet> {
        Ok(Sheet::of(Says::Length(bytes.len() as u64), bytes))
    }

    fn sheet_of(len: u64) -> io::Result<Sheet> {
        Ok(Sheet::of(Says::Length(len), b"abc"))
    }

    fn restless(times: u8, is_held: bool) -> io::Result<Sheet> {
        Ok(Sheet {
            restless: Cell::new(times),
            is_held,
            ..Sheet::of(Says::Length(4), b"\0eta")
        })
    }

    // A disk with a few files, which are read alone. It counts how often one was opened.
    #[derive(Drop)]
    struct Disk {
        opened: Cell<u32>,
    }

    impl Disk {
        fn file(&self, path: &str) -> io::Result<Sheet> {
            match path {
                "home/both" => whole(b"\x01body"),
                "home/both.crc" => whole(b"meta"),
                "home/bare" => whole(b"bare"),
                "home/lone.crc" => whole(b"lone"),
                "home/empty" | "home/most" | "home/wide" | "home/odd" => whole(b""),
                "home/most.crc" => whole(&[0; 65_536]),
                "home/wide.crc" => sheet_of(65_537),
                "home/long" => sheet_of(67_108_865),
                "home/short" => sheet_of(4),
                "home/silent" | "home/mute" => Ok(Sheet::of(Says::Nothing, b"abc")),
                "home/folder" | "home/odd.crc" | "home/swapped" => {
                    Ok(Sheet::of(Says::Folder, b"abc"))
                }
                "home/signals" => Ok(Sheet {
                    interrupts: Cell::new(9),
                    ..Sheet::of(Says::Length(3), b"abc")
                }),
                "home/free" | "home/held" | "home/calm" => whole(b"body"),
                "home/free.crc" => restless(9, false),
                "home/held.crc" => restless(9, true),
                "home/calm.crc" => restless(1, true),
                "home/shut" => Err(Error::from(ErrorKind::PermissionDenied)),
                "home/half" => whole(b"half"),
                "home/half.crc" => Err(Error::from(ErrorKind::PermissionDenied)),
                _ => Err(Error::from(ErrorKind::NotFound)),
            }
        }
    }

    impl Files for Disk {
        type File = Sheet;

        type Dir = Empty;

        fn open_file(&self, how: &OpenOptions, path: &str) -> io::Result<Sheet> {
            how.check()?;
            self.opened.set(self.opened.get().saturating_add(1));
            self.file(path)
        }

        fn open_dir(&self, _path: &str) -> io::Result<Empty> {
            unsupported()
        }

        fn metadata(&self, path: &str) -> io::Result<Metadata> {
            match path {
                "home/swapped" | "home/silent" => Ok(Metadata::of_file(3)),
                _ => metadata_of(self.file(path)?.says),
            }
        }

        fn symlink_metadata(&self, _path: &str) -> io::Result<Metadata> {
            unsupported()
        }

        fn copy(&self, _from: &str, _to: &str) -> io::Result<u64> {
            unsupported()
        }

        fn rename(&self, _from: &str, _to: &str) -> io::Result<()> {
            unsupported()
        }

        fn remove_file(&self, _path: &str) -> io::Result<()> {
            unsupported()
        }

        fn create_dir(&self, _path: &str) -> io::Result<()> {
            unsupported()
        }

        fn remove_dir(&self, _path: &str) -> io::Result<()> {
            unsupported()
        }

        fn remove_dir_all<B: Allocator>(&self, _alloc: B, _path: &str) -> io::Result<()> {
            unsupported()
        }
    }

    fn disk_of(alloc: Global) -> (Disk, Global) {
        let opened = Cell::new(0);
        (Disk { opened }, alloc)
    }

    // What a shelf answers that is asked twice for a store, and the faults that it has counted by then.
    fn asked_twice<R: Files + AllocGlobal>(
        rt: &impl Abort,
        disk: &R,
        id: &[u8],
    ) -> (Result<Brought, ShelfStop>, u64)
    where
        R::File: SharedFile,
    {
        assert!(rt; is_id(id));
        let home = Bytes::copy_of(disk.alloc(), b"home").expect(rt, "ample memory");
        let mut shelf = DirShelf::new(disk, home);
        let _ = shelf.bring(id);
        (shelf.bring(id), shelf.faults)
    }

    #[test]
    fn both_files_of_a_store_are_brought_byte_for_byte(rt: HostRuntime) {
        let disk = disk_of(rt.alloc());
        let rows: [(&[u8], &[u8], &[u8]); 5] = [
            (b"both", b"\x01body", b"meta"),
            (b"bare", b"bare", b""),
            (b"empty", b"", b""),
            (b"most", b"", &[0; 65_536]),
            (b"signals", b"abc", b""),
        ];
        for (id, body, meta) in rows {
            let (answer, faults) = asked_twice(&rt, &disk, id);
            let brought = answer.expect(&rt, "a store");
            assert_eq!(rt; brought.body.as_slice(), body, "of {id:?}");
            assert_eq!(rt; brought.meta.as_slice(), meta, "of {id:?}");
            assert_eq!(rt; faults, 0, "of {id:?}");
        }
    }

    #[test]
    fn only_a_file_that_cannot_be_read_is_a_fault(rt: HostRuntime) {
        let disk = disk_of(rt.alloc());
        let rows: [(&[u8], _, _); 12] = [
            (b"none", ShelfStop::Absent, 0),
            (b"lone", ShelfStop::Absent, 0),
            (b"long", ShelfStop::SizeRefused(67_108_865), 0),
            (b"wide", ShelfStop::SizeRefused(65_537), 0),
            (b"shut", ShelfStop::Failed, 2),
            (b"short", ShelfStop::Failed, 2),
            (b"silent", ShelfStop::Failed, 2),
            (b"mute", ShelfStop::Failed, 2),
            (b"folder", ShelfStop::Failed, 2),
            (b"odd", ShelfStop::Failed, 2),
            (b"swapped", ShelfStop::Failed, 2),
            (b"half", ShelfStop::Failed, 2),
        ];
        for (id, want, faults) in rows {
            let (answer, counted) = asked_twice(&rt, &disk, id);
            assert_eq!(rt; answer.err(), Some(want), "at {id:?}");
            assert_eq!(rt; counted, faults, "at {id:?}");
        }
    }

    // The first byte of the meta file says which reading was taken.
    #[test]
    fn where_the_lock_is_held_files_are_read_until_they_stand_still(rt: HostRuntime) {
        let disk = disk_of(rt.alloc());
        let rows: [(&[u8], &[u8]); 3] = [
            (b"free", b"\x09eta"),
            (b"held", b"\x06eta"),
            (b"calm", b"\0eta"),
        ];
        for (id, meta) in rows {
            let (answer, _) = asked_twice(&rt, &disk, id);
            let brought = answer.expect(&rt, "a store");
            assert_eq!(rt; brought.meta.as_slice(), meta, "of {id:?}");
        }
    }

    #[test]
    fn what_is_no_regular_file_is_not_opened(rt: HostRuntime) {
        let disk = disk_of(rt.alloc());
        let rows: [(&[u8], _); 4] = [(b"none", 0), (b"folder", 0), (b"odd", 2), (b"both", 4)];
        for (id, times) in rows {
            disk.0.opened.set(0);
            let _ = asked_twice(&rt, &disk, id);
            assert_eq!(rt; disk.0.opened.get(), times, "at {id:?}");
        }
    }
}
