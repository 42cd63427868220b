//! Openers that run on threads: the script that says what they do, and the worker that makes an opener's calls at its seat.
#![tactic(auto)]

mod calls;
mod entrant;
mod gate;
mod halt;
mod script;
mod threads;
mod worker;

pub use calls::{Ceased, Trouble};
pub use entrant::{Entrant, TimedCall};
pub use gate::{Gate, OpenGate};
pub use halt::{Halt, Halted};
pub use script::{Field, read_race};
pub use threads::{take_in, work_all};
pub use worker::{Done, Job, work};
