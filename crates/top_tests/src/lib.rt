//! Tests of the top call `run`. They stand beside `mmkv_top`, since a crate that has tests is proved a second time with them.
#![tactic(auto)]

#[cfg(test)]
mod deaths;
#[cfg(test)]
mod dumps;
#[cfg(test)]
mod plays;
#[cfg(test)]
mod random_stores;
#[cfg(test)]
mod runs;
#[cfg(test)]
mod second_reading;
#[cfg(test)]
mod switches;
