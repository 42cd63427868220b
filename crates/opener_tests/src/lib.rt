//! Tests of an opener's calls. They stand beside `opener`, since a crate that has tests is proved a second time with them.
#![tactic(auto)]

#[cfg(test)]
mod calls;
#[cfg(test)]
mod deaths;
#[cfg(test)]
mod loads;
#[cfg(test)]
mod quick;
#[cfg(test)]
mod stops;
