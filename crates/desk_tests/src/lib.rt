//! Tests of `step_desk`: calls on a seat, and openers at the seats of one desk.
#![tactic(auto)]

#[cfg(test)]
mod desks;
#[cfg(test)]
mod openers;
#[cfg(test)]
mod seats;
#[cfg(test)]
mod threads;
#[cfg(test)]
mod workers;
