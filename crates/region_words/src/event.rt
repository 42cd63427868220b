// What an opener does to a region in one step.
use change_log::Change;
use lock_rules::LockKind;

/// The two files of a region.
#[derive(Clone, Copy, Debug, PartialEq, Eq)]
pub enum Side {
    Data,
    Meta,
}

/// Whether a store commits a change.
#[derive(Drop)]
pub enum Mark {
    Plain,
    Commit(Change),
}

/// A data word that a death left half stored, and what it holds afterwards.
#[derive(Clone, Copy, Debug, PartialEq, Eq)]
pub struct TornWord {
    pub word: u32,
    pub value: u32,
}

/// What an opener did.
#[derive(Drop)]
pub enum What {
    Store {
        side: Side,
        word: u32,
        value: u32,
        mark: Mark,
    },
    Grow {
        size: u32,
    },
    Lock(LockKind),
    Unlock,
    Died {
        torn: Option<TornWord>,
    },
}

impl What {
    ghost use Rattle.std.specs.Prelude.{◌≡◌};
    ghost use Rattle.region_words.specs.Rows.{store_data, store_meta};

    /// A store in the data file that commits no change.
    pub fn data(word: u32, value: u32) -> What
        ensures { result ≡ store_data word value }
    {
        What::Store {
            side: Side::Data,
            word,
            value,
            mark: Mark::Plain,
        }
    }

    /// A store in the meta file that commits no change.
    pub fn meta(word: u32, value: u32) -> What
        ensures { result ≡ store_meta word value }
    {
        What::Store {
            side: Side::Meta,
            word,
            value,
            mark: Mark::Plain,
        }
    }
}

/// One step that changed the region, and its maker.
#[derive(Drop)]
pub struct Event {
    pub who: u32,
    pub what: What,
}
