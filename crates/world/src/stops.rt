// Why an opener was not opened, or a call not begun.
use handlers::Handler;
use opener::Refused;
use thiserror::Error;

/// Why no opener was opened. The first that holds is named; memory may be refused before the journal is looked at.
#[derive(Clone, Copy, Debug, PartialEq, Eq, Error)]
pub enum OpenStop {
    #[error("64 openers were opened already")]
    TooMany,
    #[error("the journal is full")]
    JournalFull,
    #[error("out of memory")]
    Memory,
}

/// The handler of an opener that was not opened, and why.
#[derive(Drop)]
pub struct NotOpened {
    pub why: OpenStop,
    pub handler: Box<dyn Handler + Send>,
}

/// Why a call was not begun.
#[derive(Clone, Copy, Debug, PartialEq, Eq, Error)]
pub enum WorldStop {
    #[error("no such opener lives")]
    NoOpener,
    #[error("{0}")]
    Refused(Refused),
    #[error("out of memory")]
    Memory,
}
