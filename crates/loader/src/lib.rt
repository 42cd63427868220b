//! What a shared region shows, found out by one load a step.
#![tactic(auto)]

mod candidates;
mod first_words;
mod found;
mod laws;
mod loaded;
mod loading;
mod outlook;
mod partial;
mod record_words;
mod stops;

pub use laws::a_kept_image_goes_on_to_a_whole_one;
pub use loaded::{Image, Loaded};
pub use loading::{Loading, Went};
pub use partial::{PartialLoading, Ran};
pub use stops::LoadStop;
