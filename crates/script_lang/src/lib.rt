//! Scripts, and the texts that are printed.
#![tactic(auto)]

mod answers;
mod call_words;
mod changes;
mod grammar;
mod input;
mod laws;
mod limits;
mod line;
mod outcome;
mod output;
mod region;
mod value_words;
mod words;

pub use answers::{answer_text, damage_text, outcome_text};
pub use changes::changes_text;
pub use grammar::{LineStop, read_line};
pub use input::{LARGEST_SCRIPT, ScriptStop, read_script};
pub use laws::a_line_names_one_thing;
pub use limits::{LARGEST_COUNT, LARGEST_LINE};
pub use line::Line;
pub use outcome::{Outcome, Reason};
pub use output::{WriteFault, write_all};
pub use region::{region_text, shown_region_text};
pub use words::hex_word;
