// What an opener is at.
ghost use Rattle.std.specs.Prelude.{◌≡◌, ◌+◌, Some};
ghost use Rattle.opener.specs.Counted.{counted, with_stored};

use crate::calls::Stop;
use crate::plan::Plan;
use change_log::{Call, Reply};
use loader::{Loading, PartialLoading};
use lock_rules::LockKind;
use region_words::{Next, Peek};

/// A call that runs: the number of changes at its begin, the lock that it has taken itself, and the loads, stores and locks
/// that it has made.
#[derive(Drop)]
pub struct Running {
    pub call: Call,
    pub now: u32,
    pub begun: u32,
    pub taken: Option<LockKind>,
    pub loads: u32,
    pub stores: u32,
    pub locks: u32,
}

impl Running {
    /// One load more.
    pub fn with_load(self) -> Running
        ensures { result ≡ record self { loads = counted (self.loads + 1) } }
    {
        Running {
            loads: self.loads.saturating_add(1),
            ..self
        }
    }

    /// One lock more, which is held from now on.
    pub fn with_lock(self, kind: LockKind) -> Running
        ensures { result ≡ record self { taken = Some kind; locks = counted (self.locks + 1) } }
    {
        Running {
            taken: Some(kind),
            locks: self.locks.saturating_add(1),
            ..self
        }
    }

    /// One event of a row more. A growth is no store.
    pub fn with_event(self, event: Next) -> Running
        ensures { result ≡ with_stored event self }
    {
        match event {
            Next::Store { .. } => Running {
                stores: self.stores.saturating_add(1),
                ..self
            },
            _ => self,
        }
    }
}

/// How a call ends once its lock is given up.
#[derive(Drop)]
pub enum End {
    Answer { place: u32, reply: Reply },
    Stop(Stop),
}

/// How much of the region a load takes.
#[derive(Clone, Copy, Debug, PartialEq, Eq)]
pub enum Extent {
    /// What was appended to the image that is kept.
    Partial,
    /// All that the region shows.
    Full,
}

/// What a call does next.
#[derive(Drop)]
pub enum Stage {
    /// It asks for the checksum.
    PeekChecksum,
    /// It asks for the sequence, after this peek of the checksum.
    PeekSequence(Peek),
    /// It asks for a shared lock, to load so much.
    LockShared(Extent),
    /// It asks for an exclusive lock.
    LockExclusive,
    /// It loads what was appended to the image that it kept, under its lock. The load has that image.
    Continue(PartialLoading),
    /// It loads the region under its lock.
    Load(Loading),
    /// It asks for the data file's size, as it will change the image that it keeps.
    Size,
    /// It asks for places and room for the stores to come.
    Reserve(Plan),
    /// It makes the stores.
    Store(Plan),
    /// It gives its lock up, and then ends so.
    Unlock(End),
    /// A hold begins.
    Hold,
    /// A hold ends.
    Release,
}

/// What an opener is at.
#[derive(Drop)]
pub enum Work {
    Idle,
    Ended,
    Runs { running: Running, stage: Stage },
}
