// What is written: an output that takes pieces.
ghost use Rattle.std.specs.Prelude.{◌≡◌, ℕ, ◌≤◌, List, Option, length, take, OnErr, IfOk};
ghost use Rattle.region_words.specs.Outside.{Rose, Writes, CountsWrite};

use crate::source::Failed;

/// An output that takes fronts of the pieces that it is given.
pub trait Sink {
    /// How many writes have failed, or took nothing of a piece that isn't empty.
    ghost faults: { Self → ℕ };

    /// The bytes that were taken, where they are told.
    ghost written: { Self → Option (List ℕ) };

    /// Takes a front of the piece and says how long it is.
    fn write(&mut self, piece: &[u8]) -> Result<usize, Failed>
        ensures within { IfOk result (λ n. n ≤ length piece.now) }
        ensures ok { IfOk result (λ n. Writes (written self.old) (written self.new) (take n piece.now)) }
        ensures err { OnErr result (written self.new ≡ written self.old) }
        ensures counts { IfOk result (CountsWrite (faults self.old) (faults self.new) piece.now) }
        ensures failed { OnErr result (Rose (faults self.old) (faults self.new)) }
        ensures never_falls { faults self.old ≤ faults self.new };
}
