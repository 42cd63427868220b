// What is read: an input that ends.
ghost use Rattle.std.specs.Prelude.{◌≡◌, ℕ, ◌<◌, ◌≤◌, ◌↔◌, List, Option, Some, length, OnOk, OnErr, IfOk, IsErr, Contains};
ghost use Rattle.region_words.specs.Outside.{Rose, Reads, after_call};

use crate::failing::Failing;
use std::marker::Model;
use thiserror::Error;

/// A read or a write failed; the count of faults says so too.
#[derive(Clone, Copy, Debug, PartialEq, Eq, Error)]
#[error("a fault of the outside")]
pub struct Failed;

/// An input that is read piece by piece to its end.
pub trait Source {
    /// How many reads have failed.
    ghost faults: { Self → ℕ };

    /// How often the end of the input was met.
    ghost ends: { Self → ℕ };

    /// The bytes that are left, where they are told.
    ghost left: { Self → Option (List ℕ) };

    /// Fills a front of the buffer and says how long it is; 0 for a buffer that isn't empty is the end of the input,
    /// which the count of ends says too.
    fn read(&mut self, buffer: &mut [u8]) -> Result<usize, Failed>
        ensures within { IfOk result (λ n. n ≤ length buffer.old) }
        ensures ok { IfOk result (λ n. Reads (left self.old) (left self.new) buffer.new n) }
        ensures err { OnErr result (left self.new ≡ left self.old) }
        ensures end { IfOk result (λ n. n ≡ 0 → 0 < length buffer.old → Rose (ends self.old) (ends self.new)) }
        ensures ends_never_fall { ends self.old ≤ ends self.new }
        ensures steady { OnOk result (faults self.new ≡ faults self.old) }
        ensures failed { OnErr result (Rose (faults self.old) (faults self.new)) }
        ensures never_falls { faults self.old ≤ faults self.new };
}
