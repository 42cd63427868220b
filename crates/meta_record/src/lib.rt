//! The record in the meta file, and what a region shows by it.
#![tactic(auto)]

mod laws;
mod record;
mod shown;
mod words;

pub use laws::{a_fresh_store_shows_nothing, a_stored_word_is_read};
pub use record::{
    Record, RecordFault, WORD_CHECKSUM, WORD_FLAGS_HIGH, WORD_FLAGS_LOW, WORD_LAST_CHECKSUM,
    WORD_LAST_SIZE, WORD_SEQUENCE, WORD_SIZE, WORD_VERSION, check_record, record_of,
};
pub use shown::{Damage, Shown, shown_size};
pub use words::{load_word, store_word};
