//! A region that openers share on threads. Each has a seat at one desk, and each call tries once to take the turn.
#![tactic(auto)]

mod counts;
mod laws;
mod plays;
mod seat;
mod steps;
mod table;
mod view;

pub use counts::CallCounts;
pub use laws::a_seat_stays_at_its_desk;
pub use seat::{Pass, Seat};
pub use table::Desk;
pub use view::{Stage, View};
