//! Who decides what becomes of a damaged store, who is told that it changed, and the stores of the repairs.
#![tactic(auto)]

mod handler;
mod repairs;
mod steady;
mod stock;

pub use handler::{Handler, Notice, Strategy};
pub use repairs::{RepairStop, start_discard, start_restore, start_size_repair};
pub use steady::Steady;
pub use stock::HandlerStock;
