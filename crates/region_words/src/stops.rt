// What the calls of a share take and answer.
use crate::event::Mark;
use thiserror::Error;

/// Why a call on a share was not answered.
#[derive(Clone, Copy, Debug, PartialEq, Eq, Error)]
pub enum ShareStop {
    /// The share failed. The opener is dead.
    #[error("the share failed")]
    Failed,
    /// It was another opener's turn. Nothing happened.
    #[error("it was another's turn")]
    Turn,
    #[error("out of memory")]
    Memory,
    /// The journal has no room for so many events.
    #[error("the journal is full")]
    JournalFull,
}

/// The checksum, and how many changes the journal has at that moment.
#[derive(Clone, Copy, Debug, PartialEq, Eq)]
pub struct Peek {
    pub checksum: u32,
    pub changes: u32,
}

/// A store that was not made, with its mark.
#[derive(Drop)]
pub struct Unstored {
    pub stop: ShareStop,
    pub mark: Mark,
}

/// A store within which an opener dies: the data word, what was to be stored, and the bits that stand where the new word
/// differs from the old one.
#[derive(Clone, Copy, Debug, PartialEq, Eq)]
pub struct TornStore {
    pub word: u32,
    pub new: u32,
    pub bits: u32,
}
