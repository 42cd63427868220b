// Real files, as a share.
ghost use Rattle.std.specs.Prelude.{◌≡◌, IfOk};
ghost use Rattle.region_words.specs.Share.{Fails};

use crate::ledger::Ledger;
use crate::shared_file::SharedFile;
use crate::store_files::StoreFiles;
use lock_rules::{LockKind, Tried};
use region_words::{
    LARGEST_DATA, LARGEST_META, Mark, Peek, Share, ShareStop, Side, TornStore, Unstored,
};
use std::alloc::{AllocError, Global};
use std::fs::{Files, OpenFile, OpenOptions};
use std::io::{Error, ErrorKind};
use std::{fs, io};
use thiserror::Error;

const CHECKSUM: u32 = 0;

const SEQUENCE: u32 = 2;

/// Why a store's files were not opened.
#[derive(Clone, Copy, Debug, PartialEq, Eq, Error)]
pub enum OpenStop {
    /// A file can't be opened, or is no regular file.
    #[error("a file that can't be opened")]
    Fault,
    /// There is no data file.
    #[error("no such store")]
    Absent,
    /// A file is over its limit; this is its length.
    #[error("a file of {0} bytes")]
    SizeRefused(u64),
    #[error("out of memory")]
    Memory,
}

impl From<AllocError> for OpenStop {
    fn from(_: AllocError) -> Self
        ensures { result ≡ OpenStop.Memory }
    {
        OpenStop::Memory
    }
}

/// A share over the two open files of a store and the lock of its meta file. It tells nothing of what they hold. Its
/// opener has the number 1; nobody knows who else holds the lock, so a refused try names holder 0.
#[derive(Drop)]
pub struct FileShare<F: SharedFile> {
    files: StoreFiles<F>,
    ledger: Ledger,
}

impl<F: SharedFile> FileShare<F> {
    ghost use Rattle.file_region.specs.Shares.{fresh, share_state};

    /// A share over two open files. It holds nothing.
    pub fn new(alloc: Global, data: F, meta: F) -> Result<FileShare<F>, AllocError>
        ensures { IfOk result (λ share. share.ledger ≡ fresh) }
    {
        Ok(FileShare {
            files: StoreFiles::new(alloc, data, meta)?,
            ledger: Ledger::new(),
        })
    }

    /// Opens the two files of a store, and fills them up with zeros to whole pages. A missing meta file is created, and a
    /// missing data file where this says so.
    pub fn open<R: Files<File = F> + AllocGlobal>(
        rt: &R,
        data: &str,
        meta: &str,
        create: bool,
    ) -> Result<FileShare<F>, OpenStop>
        ensures { IfOk result (λ share. share.ledger ≡ fresh) }
    {
        let data = open_within(rt, data, create, LARGEST_DATA)?;
        let meta = open_within(rt, meta, true, LARGEST_META)?;
        let mut share = FileShare::new(rt.alloc(), data, meta)?;
        match share.files.fill_up() {
            Ok(()) => Ok(share),
            Err(_) => Err(OpenStop::Fault),
        }
    }

    // A fault is the opener's death. The lock is given up, and nothing more is written.
    fn fail(&mut self) -> ShareStop
        ensures stop { result ≡ ShareStop.Failed }
        ensures fails { Fails (share_state self.old.ledger) (share_state self.new.ledger) }
    {
        self.files.abandon();
        self.ledger.let_go();
        self.ledger.ended = true;
        self.ledger.faults = self.ledger.faults.saturating_add(1);
        ShareStop::Failed
    }
}

// Opens a regular file of at most so many bytes. What is none isn't opened: opening a pipe waits for its writer.
fn open_within<R: Files>(
    files: &R,
    path: &str,
    create: bool,
    limit: usize,
) -> Result<R::File, OpenStop> {
    match fs::metadata(files, path) {
        Ok(metadata) if metadata.is_file() => {}
        Err(error) if error.kind() == ErrorKind::NotFound => {
            if !create {
                return Err(OpenStop::Absent);
            }
        }
        _ => return Err(OpenStop::Fault),
    }
    let mut options = OpenOptions::new();
    options.read(true).write(true).create(create);
    let Ok(file) = options.open(files, path) else {
        return Err(OpenStop::Fault);
    };
    match file.metadata() {
        Ok(metadata) if metadata.is_file() => {
            if metadata.len() > limit as u64 {
                return Err(OpenStop::SizeRefused(metadata.len()));
            }
            Ok(file)
        }
        _ => Err(OpenStop::Fault),
    }
}

impl<F: SharedFile> Share for FileShare<F> {
    ghost use Rattle.file_region.specs.Shares.{share_state};

    ghost state = { λ s. share_state s.ledger };

    fn who(&self) -> u32 {
        1
    }

    fn changes(&self) -> u32 {
        0
    }

    fn size(&mut self) -> Result<u32, ShareStop> {
        match self.files.size() {
            Ok(size) => {
                self.ledger.count_load();
                Ok(size)
            }
            Err(_) => Err(self.fail()),
        }
    }

    fn load(&mut self, side: Side, word: u32) -> Result<u32, ShareStop> {
        let loaded = match self.ledger.lock {
            Some(_) => self.files.load(side, word),
            None => self.files.read(side, word),
        };
        match loaded {
            Ok(value) => {
                self.ledger.count_load();
                Ok(value)
            }
            Err(_) => Err(self.fail()),
        }
    }

    fn peek_checksum(&mut self) -> Result<Peek, ShareStop> {
        match self.files.read(Side::Meta, CHECKSUM) {
            Ok(checksum) => {
                self.ledger.count_load();
                Ok(Peek {
                    checksum,
                    changes: 0,
                })
            }
            Err(_) => Err(self.fail()),
        }
    }

    fn peek_sequence(&mut self) -> Result<u32, ShareStop> {
        match self.files.read(Side::Meta, SEQUENCE) {
            Ok(sequence) => {
                self.ledger.count_load();
                Ok(sequence)
            }
            Err(_) => Err(self.fail()),
        }
    }

    fn reserve(&mut self, events: u32, size: u32) -> Result<(), ShareStop> {
        let places = self.ledger.places.checked_add(events);
        self.ledger.places = places.ok_or(ShareStop::Memory)?;
        self.ledger.room = self.ledger.room.max(size);
        Ok(())
    }

    fn store(&mut self, side: Side, word: u32, value: u32, mark: Mark) -> Result<(), Unstored> {
        if self.files.store(side, word, value).is_err() {
            let stop = self.fail();
            return Err(Unstored { stop, mark });
        }
        self.ledger.places -= 1;
        Ok(())
    }

    fn grow(&mut self, size: u32) -> Result<(), ShareStop> {
        if self.files.grow(size).is_err() {
            return Err(self.fail());
        }
        self.ledger.places -= 1;
        Ok(())
    }

    fn try_lock(&mut self, kind: LockKind) -> Result<Tried, ShareStop> {
        match self.files.ask_lock(kind) {
            Ok(true) => {
                self.ledger.take(kind);
                Ok(Tried::Taken)
            }
            Ok(false) => {
                self.ledger.count_busy();
                Ok(Tried::Busy(0))
            }
            Err(_) => Err(self.fail()),
        }
    }

    fn unlock(&mut self) -> Result<(), ShareStop> {
        if self.files.give_up_lock().is_err() {
            return Err(self.fail());
        }
        self.ledger.let_go();
        Ok(())
    }

    fn die(&mut self, torn: Option<TornStore>) -> Result<(), ShareStop> {
        if let Some(store) = torn {
            if self.files.tear(store).is_err() {
                return Err(self.fail());
            }
        }
        if self.files.give_up_lock().is_err() {
            return Err(self.fail());
        }
        self.ledger.let_go();
        self.ledger.ended = true;
        Ok(())
    }
}
