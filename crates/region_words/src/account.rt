// What a region in memory keeps for one opener, and counts of it.
ghost use Rattle.std.specs.Prelude.{◌≡◌, ◌<◌, ◌+◌, ◌^◌};
ghost use Rattle.region_words.specs.Local.{account_after, no_account};

use crate::event::What;

/// What a region in memory keeps for one opener: its places in the journal, the size of the data file for which it has
/// room, and how often its calls failed, loaded, and found the lock taken.
#[derive(Clone, Copy, Debug, PartialEq, Eq)]
pub struct Account {
    pub admitted: bool,
    /// For its death, for its unlock where it holds a lock, and what is reserved. None after its death.
    pub kept: u32,
    pub room: u32,
    pub faults: u64,
    pub loads: u64,
    pub busy: u64,
}

impl Account {
    /// That of an opener that was never admitted.
    pub(crate) const fn none() -> Self
        ensures { result ≡ no_account }
    {
        Account {
            admitted: false,
            kept: 0,
            room: 0,
            faults: 0,
            loads: 0,
            busy: 0,
        }
    }

    /// What an event of its opener leaves of it.
    pub(crate) fn after(self, what: &What) -> Self
        requires some { 0 < self.kept }
        requires few { self.kept + 1 < 2 ^ 32 }
        ensures { result ≡ account_after what.now self }
    {
        match what {
            What::Lock(_) => Account {
                kept: self.kept + 1,
                ..self
            },
            What::Unlock => Account {
                kept: 1,
                room: 0,
                ..self
            },
            What::Died { torn: _ } => Account {
                kept: 0,
                room: 0,
                ..self
            },
            _ => Account {
                kept: self.kept - 1,
                ..self
            },
        }
    }
}
