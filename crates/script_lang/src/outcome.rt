// What a step line of a script may end with.
use change_log::Answer;
use meta_record::Damage;

/// Why a call of a script is stopped.
#[derive(Clone, Copy, Debug, PartialEq, Eq)]
pub enum Reason {
    Damaged(Damage),
    /// The file would need this many bytes.
    Full { need: u64 },
    SequenceEnd,
    ExpiryOff,
    ExpiryRange,
    AlreadyOn,
    AlreadyOff,
}

/// What a step line of a script ends with.
#[derive(Drop)]
pub enum Outcome {
    Answered(Answer),
    /// The call waits for another opener, the least that holds the lock against it.
    Blocked { who: u32, holder: u32 },
    Stopped { who: u32, reason: Reason },
}
