//! The stores that write the pairs of a map anew, worked out from what is known of the image.
#![tactic(auto)]

mod parts;
mod rewriting;

pub use rewriting::{RewriteStop, start_rewrite};
