//! Tests of a world of several openers. They stand beside `world`, since a crate that has tests is proved a second time with them.
#![tactic(auto)]

#[cfg(test)]
mod appended;
#[cfg(test)]
mod deaths;
#[cfg(test)]
mod openings;
#[cfg(test)]
mod turns;
#[cfg(test)]
mod worlds;
