//! Who holds the lock, and how often an opener has asked for it.
#![tactic(auto)]

mod counts;
mod laws;
mod limits;
mod table;

pub use counts::{Ask, Leave, LockCounts};
pub use laws::an_opener_holds_what_it_counts;
pub use limits::{DEEPEST_COUNT, MOST_HOLDS, MOST_OPENERS};
pub use table::{LockKind, LockTable, Tried};
