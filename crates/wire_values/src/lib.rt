//! Typed values and their bytes.
#![tactic(auto)]

mod decoding;
mod encoding;
mod laws;
mod number;
mod value;
mod words;

pub use decoding::{ValueStop, decode};
pub use encoding::encode;
pub use laws::{
    a_value_is_read_back, a_word_spells_one_value, a_written_word_is_read_back,
    bytes_spell_one_value, no_spelling_is_shorter,
};
pub use value::{Kind, Value};
pub use words::{read_word, value_text};
