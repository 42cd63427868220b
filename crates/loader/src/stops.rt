// Why a load came to no end.
use expiring_map::Memory;
use meta_record::RecordFault;
use region_words::ShareStop;
use thiserror::Error;

/// Why a step of a load was not made. The load is as it was before.
#[derive(Clone, Copy, Debug, PartialEq, Eq, Error)]
pub enum LoadStop {
    #[error("{0}")]
    Share(ShareStop),
    /// The record that was loaded is refused.
    #[error("{0}")]
    Record(RecordFault),
    #[error("out of memory")]
    Memory,
}

impl From<ShareStop> for LoadStop {
    ghost use Rattle.std.specs.Prelude.{◌≡◌};
    ghost use Rattle.loader.specs.declared.stops.LoadStop.TheVariants.{Share};

    ghost from_gives = { λ stop e. e ≡ Share stop };

    fn from(stop: ShareStop) -> Self {
        LoadStop::Share(stop)
    }
}

impl From<RecordFault> for LoadStop {
    ghost use Rattle.std.specs.Prelude.{◌≡◌};
    ghost use Rattle.loader.specs.declared.stops.LoadStop.TheVariants as stop;

    ghost from_gives = { λ fault e. e ≡ stop.Record fault };

    fn from(fault: RecordFault) -> Self {
        LoadStop::Record(fault)
    }
}

impl From<Memory> for LoadStop {
    ghost use Rattle.std.specs.Prelude.{◌≡◌};
    ghost use Rattle.loader.specs.declared.stops.LoadStop.TheVariants as stop;

    ghost from_gives = { λ _ e. e ≡ stop.Memory };

    fn from(_: Memory) -> Self {
        LoadStop::Memory
    }
}
