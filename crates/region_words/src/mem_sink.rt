// An output in memory, whose writes may be made to fail.
ghost use Rattle.std.specs.Prelude.{◌≡◌, ◌<◌, ◌≤◌, ◌⊎◌, ◌-◌, ◌↔◌, Some, length, min, take, OnErr, IfOk, IsErr, Contains, is_err, []};
ghost use Rattle.region_words.specs.Outside.{Rose, Writes, CountsWrite, after_call};

use crate::failing::Failing;
use crate::sink::Sink;
use crate::source::Failed;
use expiring_map::Memory;
use std::alloc::Global;
use std::marker::Model;

/// Takes bytes up to its room; the writes of the given numbers fail, and so does each that finds it full.
#[derive(Debug, Drop)]
pub struct MemSink {
    written: Vec<u8>,
    room: usize,
    failing: Failing,
}

impl Model for MemSink {
    ghost use Rattle.std.specs.Prelude.{◌≤◌, vec_len, vec_capacity};
    ghost use Rattle.region_words.specs.Outside.{Output};

    ghost Value = { Output };

    ghost view = { λ s. record { written = s.written.items; room = s.room; tally = s.failing } };

    ghost invariant = { λ s. (vec_len s.written ≤ s.room) × (s.room ≤ vec_capacity s.written) };
}

impl MemSink {
    /// Takes the memory for all its room. The writes of the numbers in `fails`, counted from 0, are to fail.
    pub fn new(alloc: Global, room: usize, fails: Vec<u64>) -> Result<MemSink, Memory>
        ensures { IfOk result (λ s.
            s ≡ record { written = []; room = room; tally = record { listed = fails.items; made = 0; faults = 0 } }) }
    {
        Ok(MemSink {
            written: Vec::with_capacity(alloc, room)?,
            room,
            failing: Failing::new(fails),
        })
    }

    /// What it took.
    pub fn written(&self) -> &[u8]
        ensures { result.now ≡ self.now.written }
    {
        &self.written
    }
}

impl Sink for MemSink {
    ghost faults = { λ s. s.tally.faults };

    ghost written = { λ s. Some s.written };

    fn write(&mut self, piece: &[u8]) -> Result<usize, Failed>
        ensures within { IfOk result (λ n. n ≤ length piece.now) }
        ensures ok { IfOk result (λ n. Writes (Some self.old.written) (Some self.new.written) (take n piece.now)) }
        ensures err { OnErr result (self.new.written ≡ self.old.written) }
        ensures counts { IfOk result (CountsWrite self.old.tally.faults self.new.tally.faults piece.now) }
        ensures failed { OnErr result (Rose self.old.tally.faults self.new.tally.faults) }
        ensures never_falls { self.old.tally.faults ≤ self.new.tally.faults }
        ensures most { IfOk result (λ n. n ≡ min (length piece.now) (self.old.room - length self.old.written)) }
        ensures fails { IsErr result ↔ (Contains self.old.tally.listed self.old.tally.made
            ⊎ ((0 < length piece.now) × (self.old.room ≤ length self.old.written))) }
        ensures tally { self.new.tally ≡ after_call self.old.tally (is_err result) }
        ensures room { self.new.room ≡ self.old.room }
    {
        if self.failing.next_fails() {
            return Err(Failed);
        }
        let n = piece.len().min(self.room - self.written.len());
        if n == 0 && !piece.is_empty() {
            self.failing.fault();
            return Err(Failed);
        }
        self.written.extend_from_slice(&piece[..n]).unwrap();
        Ok(n)
    }
}
