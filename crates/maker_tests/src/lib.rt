//! Tests of loads, appends, write-backs and switches of the expiry. They stand beside `loader`, `appender`, `write_back` and
//! `expiry_switch`, since a crate that has tests is proved a second time with them.
#![tactic(auto)]

#[cfg(test)]
mod appends;
#[cfg(test)]
mod loads;
#[cfg(test)]
mod partials;
#[cfg(test)]
mod seen;
#[cfg(test)]
mod switches;
#[cfg(test)]
mod write_backs;
