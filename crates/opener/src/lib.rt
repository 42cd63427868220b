//! An opener of a shared region: its calls, made step by step over any share.
#![tactic(auto)]

mod calls;
mod deaths;
mod extents;
mod laws;
mod opener;
mod opener_core;
mod plan;
mod quick;
mod reads;
mod refusals;
mod reply;
mod work;
mod writes;

pub use calls::{NotBegun, Refused, Step, Stop};
pub use laws::{an_opener_that_is_settled_is_legal, kept_values_answer_after_a_look};
pub use opener::Opener;
pub use opener_core::OpenerCore;
pub use quick::Quick;
