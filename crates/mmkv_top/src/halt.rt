// Why a play ends before its script does.
use expiring_map::Memory;
use world::{OpenStop, WorldStop};

/// Why a line ends the play.
#[derive(Clone, Copy, Debug, PartialEq, Eq)]
pub enum Halt {
    /// It is none of the grammar, or what it names can't be done.
    Refused,
    /// The journal has no place for its events.
    JournalFull,
    /// The region shows no whole image, and repairs aren't there yet.
    NotWhole,
    Memory,
}

impl From<Memory> for Halt {
    ghost use Rattle.std.specs.Prelude.{◌≡◌};
    ghost use Rattle.mmkv_top.specs.Halting.{memory};

    ghost from_gives = { λ _ h. h ≡ memory };

    fn from(_: Memory) -> Halt {
        Halt::Memory
    }
}

impl From<OpenStop> for Halt {
    ghost use Rattle.std.specs.Prelude.{◌≡◌};
    ghost use Rattle.mmkv_top.specs.Halting.{of_opening};

    ghost from_gives = { λ stop h. h ≡ of_opening stop };

    fn from(stop: OpenStop) -> Halt {
        match stop {
            OpenStop::TooMany => Halt::Refused,
            OpenStop::JournalFull => Halt::JournalFull,
            OpenStop::Memory => Halt::Memory,
        }
    }
}

impl From<WorldStop> for Halt {
    ghost use Rattle.std.specs.Prelude.{◌≡◌};
    ghost use Rattle.mmkv_top.specs.Halting.{of_begin};

    ghost from_gives = { λ stop h. h ≡ of_begin stop };

    fn from(stop: WorldStop) -> Halt {
        match stop {
            WorldStop::NoOpener | WorldStop::Refused(_) => Halt::Refused,
            WorldStop::Memory => Halt::Memory,
        }
    }
}

/// The line of this number, counted from 1, ended the play.
#[derive(Clone, Copy, Debug, PartialEq, Eq)]
pub struct Halted {
    pub(crate) number: usize,
    pub(crate) why: Halt,
}
