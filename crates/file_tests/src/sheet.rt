// Made-up files that note which reads and writes are made on them, and of which a call can fail.
use file_region::SharedFile;
use lock_rules::LockKind;
use region_words::Side;
use std::alloc::Global;
use std::cell::{Cell, RefCell};
use std::fs::{Metadata, OpenFile};
use std::io;
use std::io::{Error, ErrorKind};
use std::os::unix::fs::FileExt;

// The two files of a store.
#[derive(Drop)]
pub(crate) struct Desk {
    pub(crate) data: RefCell<Vec<u8>>,
    pub(crate) meta: RefCell<Vec<u8>>,
    // each read and write, in their order
    pub(crate) moved: RefCell<Vec<Moved>>,
    // how many bytes a read or a write moves at most
    pub(crate) most: Cell<usize>,
    // how many of the next reads and writes are interrupted
    pub(crate) interrupts: Cell<u32>,
    // how many writes there is room for on the disk
    pub(crate) room: Cell<u32>,
    pub(crate) is_locked: Cell<bool>,
}

#[derive(Clone, Copy, Debug, PartialEq, Eq)]
pub(crate) enum Moved {
    Read(Side, u64, usize),
    Write(Side, u64, usize),
}

// One of the two, open.
#[derive(Drop)]
pub(crate) struct Sheet<'a> {
    desk: &'a Desk,
    side: Side,
}

impl Desk {
    // Files of zeros, of so many pages and of one page.
    pub(crate) fn new(alloc: Global, pages: u16) -> io::Result<Desk> {
        Ok(Desk {
            data: RefCell::new(vec![in alloc; 0u8; 4096 * usize::from(pages)]?),
            meta: RefCell::new(vec![in alloc; 0u8; 4096]?),
            moved: RefCell::new(Vec::new(alloc)),
            most: Cell::new(usize::MAX),
            interrupts: Cell::new(0),
            room: Cell::new(u32::MAX),
            is_locked: Cell::new(false),
        })
    }

    pub(crate) fn sheet(&self, side: Side) -> Sheet<'_> {
        Sheet { desk: self, side }
    }

    // The calls noted so far, which are forgotten.
    pub(crate) fn take_moved(&self, alloc: Global) -> Vec<Moved> {
        self.moved
            .try_replace(Vec::new(alloc))
            .unwrap_or(Vec::new(alloc))
    }

    fn note(&self, moved: Moved) -> io::Result<()> {
        if let Some(left) = self.interrupts.get().checked_sub(1) {
            self.interrupts.set(left);
            return Err(Error::from(ErrorKind::Interrupted));
        }
        let Ok(mut all) = self.moved.try_borrow_mut() else {
            return Err(Error::from(ErrorKind::ResourceBusy));
        };
        all.push(moved)?;
        Ok(())
    }
}

impl Sheet<'_> {
    fn bytes(&self) -> &RefCell<Vec<u8>> {
        match self.side {
            Side::Data => &self.desk.data,
            Side::Meta => &self.desk.meta,
        }
    }
}

impl FileExt for Sheet<'_> {
    fn read_at(&self, buf: &mut [u8], offset: u64) -> io::Result<usize> {
        self.desk.note(Moved::Read(self.side, offset, buf.len()))?;
        let Ok(bytes) = self.bytes().try_borrow() else {
            return Err(Error::from(ErrorKind::ResourceBusy));
        };
        let rest = bytes.get(offset as usize..).unwrap_or(&[]);
        let n = rest.len().min(buf.len()).min(self.desk.most.get());
        buf[..n].copy_from_slice(&rest[..n]);
        Ok(n)
    }

    fn write_at(&self, buf: &[u8], offset: u64) -> io::Result<usize> {
        self.desk.note(Moved::Write(self.side, offset, buf.len()))?;
        let Some(room) = self.desk.room.get().checked_sub(1) else {
            return Err(Error::from(ErrorKind::StorageFull));
        };
        self.desk.room.set(room);
        let Ok(mut bytes) = self.bytes().try_borrow_mut() else {
            return Err(Error::from(ErrorKind::ResourceBusy));
        };
        let from = offset as usize;
        if from > bytes.len() {
            return Err(Error::from(ErrorKind::InvalidInput));
        }
        let rest = &mut bytes[from..];
        let n = rest.len().min(buf.len()).min(self.desk.most.get());
        rest[..n].copy_from_slice(&buf[..n]);
        Ok(n)
    }
}

impl OpenFile for Sheet<'_> {
    fn metadata(&self) -> io::Result<Metadata> {
        match self.bytes().try_borrow() {
            Ok(bytes) => Ok(Metadata::of_file(bytes.len() as u64)),
            Err(_) => Err(Error::from(ErrorKind::ResourceBusy)),
        }
    }

    fn set_len(&self, size: u64) -> io::Result<()> {
        match self.bytes().try_borrow_mut() {
            Ok(mut bytes) => Ok(bytes.resize(size as usize, 0)?),
            Err(_) => Err(Error::from(ErrorKind::ResourceBusy)),
        }
    }

    fn sync_all(&self) -> io::Result<()> {
        Err(Error::from(ErrorKind::Unsupported))
    }

    fn sync_data(&self) -> io::Result<()> {
        Err(Error::from(ErrorKind::Unsupported))
    }
}

impl SharedFile for Sheet<'_> {
    fn ask_lock(&self, _kind: LockKind) -> io::Result<bool> {
        Ok(!self.desk.is_locked.replace(true))
    }

    fn give_up_lock(&self) -> io::Result<()> {
        self.desk.is_locked.set(false);
        Ok(())
    }
}
