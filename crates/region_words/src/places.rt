// Places in a journal.
ghost use Rattle.std.specs.Prelude.{◌≡◌, ◌+◌, ◌<◌, ◌≤◌, IfErr, OnOk, vec_capacity, vec_len};
ghost use Rattle.region_words.specs.Share.{most_events};
ghost use Rattle.region_words.specs.Places.{LacksRoom};

use crate::event::Event;
use thiserror::Error;

/// The events and the kept places that a journal has room for.
pub const MOST_EVENTS: usize = 4_194_304;

/// Why places in a journal were not kept.
#[derive(Clone, Copy, Debug, PartialEq, Eq, Error)]
pub enum AdmitStop {
    /// Events and kept places would be too many.
    #[error("the journal is full")]
    JournalFull,
    #[error("out of memory")]
    Memory,
}

// Takes memory for so many places beside those kept. No event changes.
pub fn make_room(journal: &mut Vec<Event>, kept: u32, asked: u32) -> Result<(), AdmitStop>
    requires { vec_len journal.old + kept ≤ most_events }
    ensures items { journal.new.items ≡ journal.old.items }
    ensures capacity { vec_capacity journal.old ≤ vec_capacity journal.new }
    ensures few { OnOk result (vec_len journal.old + kept + asked ≤ most_events) }
    ensures room { OnOk result (vec_len journal.old + kept + asked ≤ vec_capacity journal.new) }
    ensures err { IfErr result (LacksRoom (vec_len journal.old + kept + asked)) }
{
    let wanted = kept as usize + asked as usize;
    if wanted > MOST_EVENTS - journal.len() {
        return Err(AdmitStop::JournalFull);
    }
    journal.reserve(wanted).map_err(|_| AdmitStop::Memory)
}
