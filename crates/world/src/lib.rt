//! Several openers of one region in memory: whose step comes next is for the caller to say.
#![tactic(auto)]

mod base;
mod laws;
mod moves;
mod openers;
mod stops;
mod world;
mod world_core;

pub use laws::{answers_count_loads_that_were_made, reserved_places_are_of_the_stores_under_way};
pub use moves::Moved;
pub use openers::MOST_OPENERS;
pub use stops::{NotOpened, OpenStop, WorldStop};
pub use world::World;
