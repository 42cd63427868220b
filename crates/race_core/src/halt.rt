// Why a script is not read to its end.
use expiring_map::Memory;

/// Why a line ends the reading.
#[derive(Clone, Copy, Debug, PartialEq, Eq)]
pub enum Halt {
    /// It is none of the grammar, or what it names can't be done.
    Refused,
    /// Memory was refused.
    Memory,
}

impl From<Memory> for Halt {
    ghost use Rattle.std.specs.Prelude.{◌≡◌};
    ghost use Rattle.race_core.specs.declared.halt.Halt.TheVariants as halt;

    ghost from_gives = { λ _ h. h ≡ halt.Memory };

    fn from(_: Memory) -> Halt {
        Halt::Memory
    }
}

/// The line of this number, counted from 1, ended the reading.
#[derive(Clone, Copy, Debug, PartialEq, Eq)]
pub struct Halted {
    pub number: usize,
    pub why: Halt,
}
