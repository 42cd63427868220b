//! Bytes, pairs, and the map whose pairs expire.
#![tactic(auto)]

mod bytes;
mod iter;
mod kept;
mod map;
mod pair;

pub use bytes::{Bytes, Memory};
pub use iter::{Iter, PairRef};
pub use map::ExpiringMap;
pub use pair::{Keys, Pair, Pairs};
