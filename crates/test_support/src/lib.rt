//! What the test crates share: a store with one pair, a seat at a region, and a share that tells nothing.
#![tactic(auto)]

mod seats;
mod silent;
mod stores;

pub use seats::opened;
pub use silent::Silent;
pub use stores::{BODY, META};
