// Where stores lie.
ghost use Rattle.std.specs.Prelude.{◌≡◌, ◌≢◌, ℕ, ◌<◌, ◌≤◌, List, Err, length, IfOk, IsErrOf};
ghost use Rattle.region_words.specs.Outside.{Rose};
ghost use Rattle.region_words.specs.Stores.{IsId, Told, IsDueOrRefused};

use expiring_map::Bytes;
use kv_pairs::LARGEST_FILE;
use thiserror::Error;

/// The greatest length of a data file, in bytes.
pub const LARGEST_DATA: usize = LARGEST_FILE as usize;

/// The greatest length of a meta file, in bytes.
pub const LARGEST_META: usize = 65_536;

/// The bytes of a store's two files, as they lie there.
#[derive(Debug, Drop)]
pub struct Brought {
    pub body: Bytes,
    pub meta: Bytes,
}

/// Why a shelf brings nothing.
#[derive(Clone, Copy, Debug, PartialEq, Eq, Error)]
pub enum ShelfStop {
    /// The shelf had a fault, which its count says too.
    #[error("a fault of the shelf")]
    Failed,
    /// There is no data file of that ID, which the count of absences says too.
    #[error("no such store")]
    Absent,
    /// A file is over its limit; this is its length.
    #[error("a file of {0} bytes")]
    SizeRefused(u64),
    /// Memory was refused.
    #[error("out of memory")]
    Memory,
}

/// Where stores lie, each under its ID.
pub trait Shelf {
    /// How many calls have failed.
    ghost faults: { Self → ℕ };

    /// How often a store was asked for that isn't there.
    ghost absences: { Self → ℕ };

    /// What lies under an ID, where the shelf tells it.
    ghost stores: { Self → List ℕ → Told };

    /// The bytes of a store's two files; a missing meta file counts as an empty one.
    fn bring(&mut self, id: &[u8]) -> Result<Brought, ShelfStop>
        requires { IsId id.now }
        ensures told { IsDueOrRefused (stores self.old id.now) result }
        ensures data_size { IfOk result (λ b. length b.body ≤ LARGEST_DATA) }
        ensures meta_size { IfOk result (λ b. length b.meta ≤ LARGEST_META) }
        ensures absent { IsErrOf result ShelfStop.Absent → Rose (absences self.old) (absences self.new) }
        ensures absences_never_fall { absences self.old ≤ absences self.new }
        ensures failed { IsErrOf result ShelfStop.Failed → Rose (faults self.old) (faults self.new) }
        ensures steady { result ≢ Err ShelfStop.Failed → faults self.new ≡ faults self.old }
        ensures never_falls { faults self.old ≤ faults self.new }
        ensures same { (other : List ℕ) → stores self.new other ≡ stores self.old other };
}
