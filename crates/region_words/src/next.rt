// How a change in progress goes on.
use crate::event::Side;

/// What a change in progress does next.
#[derive(Clone, Copy, Debug, PartialEq, Eq)]
pub enum Next {
    Store { side: Side, word: u32, value: u32 },
    /// The data file grows to this size, in bytes.
    Grow(u32),
    End,
}

/// Whether a change has more to store.
#[derive(Clone, Copy, Debug, PartialEq, Eq)]
pub enum Stored {
    More,
    Done,
}
