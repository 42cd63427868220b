//! The stores that put one item at the end of a payload, worked out from what is known of the image.
#![tactic(auto)]

mod appending;
mod item;

pub use appending::start_append;
