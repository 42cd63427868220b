// How an opener's calls go on and end.
use change_log::{Answer, Call};
use meta_record::Shown;
use thiserror::Error;

/// What a step of an opener came to.
#[derive(Drop)]
pub enum Step {
    /// No call runs.
    Idle,
    /// The call goes on.
    Going,
    /// It was another opener's turn. The step is to be made again.
    Again,
    /// This opener holds a lock that stands against the call. The step is to be made again.
    Blocked(u32),
    /// The call is over, with this answer.
    Answered(Answer),
    /// The call is over, without an answer.
    Stopped(Stop),
}

/// Why a call was not answered. Its locks are given up, and it has changed nothing.
#[derive(Clone, Copy, Debug, PartialEq, Eq, Error)]
pub enum Stop {
    /// The share failed. The opener is dead.
    #[error("the share failed")]
    Fault,
    #[error("out of memory")]
    Memory,
    #[error("the journal is full")]
    JournalFull,
    /// The region shows this, and no whole image.
    #[error("the region shows no whole image")]
    NotWhole(Shown),
    #[error("version {0} of the record is not known")]
    Version(u32),
    #[error("the record has unknown flags: {0}")]
    Flags(u64),
    /// A data file of so many bytes would be needed, more than the greatest has.
    #[error("the store is full: {need} bytes are needed")]
    Full { need: u64 },
    /// The sequence is 2^32 - 1, and the pairs would have to be written anew.
    #[error("the sequence is at its end")]
    SequenceEnd,
    /// The pairs of this store have no expiry.
    #[error("pairs can't expire in this store")]
    ExpiryOff,
    /// The pair would expire after second 2^32 - 1.
    #[error("the expiry is past 32 bits")]
    ExpiryRange,
    /// The pairs of this store expire already.
    #[error("pairs can expire in this store already")]
    AlreadyOn,
    /// The pairs of this store don't expire.
    #[error("pairs can't expire in this store anyway")]
    AlreadyOff,
}

/// Why a call is not begun. The first that holds is named.
#[derive(Clone, Copy, Debug, PartialEq, Eq, Error)]
pub enum Refused {
    #[error("the opener is dead")]
    Ended,
    #[error("a call runs already")]
    CallRunning,
    #[error("the key is empty")]
    EmptyKey,
    #[error("the value is empty")]
    EmptyValue,
    #[error("the key or the value has more than 2^27 bytes")]
    TooLong,
    #[error("nothing is held")]
    NotHeld,
    #[error("1,000 holds stand already")]
    TooDeep,
}

/// A call that was not begun, and why.
#[derive(Drop)]
pub struct NotBegun {
    pub why: Refused,
    pub call: Call,
}
