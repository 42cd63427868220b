//! Tests of histories, scripts and texts. They stand beside `change_log` and `script_lang`, since a crate that has tests is proved
//! a second time with them.
#![tactic(auto)]

#[cfg(test)]
mod histories;
#[cfg(test)]
mod lines;
#[cfg(test)]
mod texts;
