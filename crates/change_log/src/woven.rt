// Answers and changes as one history.
ghost use Rattle.std.specs.Prelude.{◌≡◌};

use std::marker::Model;
use thiserror::Error;

/// A member of a history: a reading answer or a change, by its number.
#[derive(Clone, Copy, Debug, PartialEq, Eq)]
pub enum Entry {
    Read(u32),
    Change(u32),
}

/// A history, its first member first.
#[derive(Debug, Drop)]
pub struct Woven {
    items: Vec<Entry>,
}

impl Model for Woven {
    ghost use Rattle.std.specs.Prelude.{List};
    ghost use Rattle.change_log.specs.declared.woven.Entry.{Entry};

    ghost Value = { List Entry };

    ghost view = { λ woven. woven.items.items };
}

impl Woven {
    pub fn as_slice(&self) -> &[Entry]
        ensures { result.now ≡ self.now }
    {
        &self.items
    }

    /// The same history; its memory is handed over.
    pub fn into_vec(self) -> Vec<Entry>
        ensures { result.items ≡ self }
    {
        self.items
    }

    pub(crate) fn of_vec(from: Vec<Entry>) -> Woven
        ensures { result ≡ from.items }
    {
        Woven { items: from }
    }
}

/// Why there is no history.
#[derive(Clone, Copy, Debug, PartialEq, Eq, Error)]
pub enum WeaveStop {
    /// The number of the first answer whose place is above the number of changes.
    #[error("answer {0} has its place after the last change")]
    PlaceRange(u32),
    /// Memory was refused.
    #[error("out of memory")]
    Memory,
}
