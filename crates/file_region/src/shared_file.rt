// An open file that several processes share.
use lock_rules::LockKind;
use std::fs::{File, OpenFile, TryLockError};
use std::io;
use std::os::unix::fs::FileExt;

/// An open file that is read and written at places, and has a lock that keeps other opens of it out. A lock belongs to
/// the open file, and is given up at the latest where it is closed.
pub trait SharedFile: FileExt + OpenFile + Drop {
    /// Asks once for the lock, which isn't held so far, and says whether it was had.
    fn ask_lock(&self, kind: LockKind) -> io::Result<bool>;

    /// Gives the lock up.
    fn give_up_lock(&self) -> io::Result<()>;
}

impl SharedFile for File {
    fn ask_lock(&self, kind: LockKind) -> io::Result<bool> {
        let asked = match kind {
            LockKind::Shared => self.try_lock_shared(),
            LockKind::Exclusive => self.try_lock(),
        };
        match asked {
            Ok(()) => Ok(true),
            Err(TryLockError::WouldBlock) => Ok(false),
            Err(TryLockError::Error(error)) => Err(error),
        }
    }

    fn give_up_lock(&self) -> io::Result<()> {
        self.unlock()
    }
}
