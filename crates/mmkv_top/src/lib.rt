//! The top call of the program `mmkv`: a command over a shelf of stores.
#![tactic(auto)]

mod command;
mod dump;
mod ending;
mod halt;
mod lines;
mod moves;
mod play;
mod refusals;
mod top;

pub use command::most_openers;
pub use ending::Status;
pub use halt::{Halt, Halted};
pub use play::play_on;
pub use top::run;
