//! Tests of the share of real files: over files of an empty folder, and over made-up files that note each call.
#![tactic(auto)]

#[cfg(test)]
mod folder;
#[cfg(test)]
mod locks;
#[cfg(test)]
mod openers;
#[cfg(test)]
mod openings;
#[cfg(test)]
mod sheet;
#[cfg(test)]
mod sheets;
#[cfg(test)]
mod shelves;
#[cfg(test)]
mod under_lock;
