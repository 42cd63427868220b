//! What a region is after a journal with deaths in it, and whether its checksums told its payloads apart.
#![tactic(auto)]

mod after;
mod files;
mod range;
mod run;
mod seen;

pub use after::{after_death, apart_holds};
pub use files::Files;
pub use range::{are_in_range, lawful_events_are_in_range};
