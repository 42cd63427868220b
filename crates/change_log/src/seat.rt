// Where the members of a history stand.
use crate::woven::Entry;

// By place, the reads of a place before its change, and reads by caller and number.
#[derive(Clone, Copy, PartialEq, Eq, PartialOrd, Ord)]
pub(crate) struct Seat {
    pub(crate) place: u32,
    pub(crate) is_change: bool,
    pub(crate) who: u32,
    pub(crate) number: u32,
}

impl Seat {
    ghost use Rattle.std.specs.Prelude.{◌≡◌};
    ghost use Rattle.change_log.specs.Seats.{entry_of};

    pub(crate) fn entry(&self) -> Entry
        ensures { result ≡ entry_of self.now }
    {
        if self.is_change {
            Entry::Change(self.number)
        } else {
            Entry::Read(self.number)
        }
    }
}
