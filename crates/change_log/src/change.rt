// Changes of a map.
ghost use Rattle.std.specs.Prelude.{◌≡◌};

use expiring_map::{Bytes, Pairs};
use std::marker::Model;

/// What a change does to the map.
#[derive(Drop)]
pub enum Act {
    Put {
        key: Bytes,
        value: Bytes,
        expiry: u32,
    },
    Remove {
        key: Bytes,
    },
    Clear,
    Pack {
        now: u32,
    },
    Enable {
        now: u32,
        seconds: u32,
    },
    Disable {
        now: u32,
    },
    Restored {
        pairs: Pairs,
    },
    Discarded,
    Recovered {
        pairs: Pairs,
    },
}

/// A change and the opener that made it.
#[derive(Drop)]
pub struct Change {
    pub maker: u32,
    pub act: Act,
}

/// A list of changes.
#[derive(Drop)]
pub struct Changes {
    items: Vec<Change>,
}

impl Model for Changes {
    ghost use Rattle.std.specs.Prelude.{List};
    ghost use Rattle.change_log.specs.declared.change.Change.{Change};

    ghost Value = { List Change };

    ghost view = { λ a. a.items.items };
}

impl Changes {
    pub fn as_slice(&self) -> &[Change]
        ensures { result.now ≡ self.now }
    {
        &self.items
    }

    /// The same changes; their memory is handed over.
    pub fn of_vec(from: Vec<Change>) -> Changes
        ensures { result ≡ from.items }
    {
        Changes { items: from }
    }

    /// The same changes; their memory is handed over.
    pub fn into_vec(self) -> Vec<Change>
        ensures { result.items ≡ self }
    {
        self.items
    }
}
