//! Tests of a region, its shares and the outside. They stand beside `region_words`, since a crate that has tests is proved a
//! second time with them.
#![tactic(auto)]

#[cfg(test)]
mod changes;
#[cfg(test)]
mod growing;
#[cfg(test)]
mod outside;
#[cfg(test)]
mod seats;
#[cfg(test)]
mod sharing;
#[cfg(test)]
mod silent;
