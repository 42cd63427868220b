// What openers are asked, and what they answer.
use expiring_map::{Bytes, Keys};

/// What an opener is asked.
#[derive(Drop)]
pub enum Call {
    Get {
        key: Bytes,
    },
    Put {
        key: Bytes,
        value: Bytes,
        seconds: u32,
    },
    Remove {
        key: Bytes,
    },
    Clear,
    Keys,
    Count,
    Enable {
        seconds: u32,
    },
    Disable,
    Hold,
    Release,
    Sync,
}

/// What it answers.
#[derive(Drop)]
pub enum Reply {
    None,
    Value(Bytes),
    Keys(Keys),
    Count(usize),
    Done,
}

/// An answered call, with the numbers of changes when it began, where it stands, and when it was answered.
#[derive(Drop)]
pub struct Answer {
    pub who: u32,
    pub call: Call,
    pub now: u32,
    pub begun: u32,
    pub place: u32,
    pub ended: u32,
    pub reply: Reply,
    pub loads: u32,
    pub stores: u32,
    pub locks: u32,
}
