//! The stores that switch the expiry of a store on or off, worked out from what is known of the image.
#![tactic(auto)]

mod parts;
mod switching;

pub use switching::{SwitchStop, start_disable, start_enable};
