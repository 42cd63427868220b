// An input in memory, whose reads may be made to fail.
ghost use Rattle.std.specs.Prelude.{◌≡◌, ◌<◌, ◌≤◌, ◌↔◌, Some, length, min, OnOk, OnErr, IfOk, IsErr, Contains, is_err};
ghost use Rattle.region_words.specs.Outside.{Rose, Reads, after_call};

use crate::failing::Failing;
use crate::source::{Failed, Source};
use std::marker::Model;

/// Bytes that are read to their end; the reads of the given numbers fail.
#[derive(Debug, Drop)]
pub struct MemSource {
    bytes: Vec<u8>,
    at: usize,
    ends: u64,
    failing: Failing,
}

impl Model for MemSource {
    ghost use Rattle.std.specs.Prelude.{◌≤◌, drop, vec_len};
    ghost use Rattle.region_words.specs.Outside.{Input};

    ghost Value = { Input };

    ghost view = { λ s. record { left = drop s.at s.bytes.items; ends = s.ends; tally = s.failing } };

    ghost invariant = { λ s. s.at ≤ vec_len s.bytes };
}

impl MemSource {
    /// Nothing is read yet. The reads of the numbers in `fails`, counted from 0, are to fail.
    pub fn new(bytes: Vec<u8>, fails: Vec<u64>) -> MemSource
        ensures { result ≡ record { left = bytes.items; ends = 0; tally = record { listed = fails.items; made = 0; faults = 0 } } }
    {
        MemSource {
            bytes,
            at: 0,
            ends: 0,
            failing: Failing::new(fails),
        }
    }
}

impl Source for MemSource {
    ghost faults = { λ s. s.tally.faults };

    ghost ends = { λ s. s.ends };

    ghost left = { λ s. Some s.left };

    // The buffer is filled as far as bytes are left.
    fn read(&mut self, buffer: &mut [u8]) -> Result<usize, Failed>
        ensures within { IfOk result (λ n. n ≤ length buffer.old) }
        ensures ok { IfOk result (λ n. Reads (Some self.old.left) (Some self.new.left) buffer.new n) }
        ensures err { OnErr result (self.new.left ≡ self.old.left) }
        ensures end { IfOk result (λ n. n ≡ 0 → 0 < length buffer.old → Rose self.old.ends self.new.ends) }
        ensures ends_never_fall { self.old.ends ≤ self.new.ends }
        ensures steady { OnOk result (self.new.tally.faults ≡ self.old.tally.faults) }
        ensures failed { OnErr result (Rose self.old.tally.faults self.new.tally.faults) }
        ensures never_falls { self.old.tally.faults ≤ self.new.tally.faults }
        ensures most { IfOk result (λ n. n ≡ min (length buffer.old) (length self.old.left)) }
        ensures fails { IsErr result ↔ Contains self.old.tally.listed self.old.tally.made }
        ensures tally { self.new.tally ≡ after_call self.old.tally (is_err result) }
    {
        if self.failing.next_fails() {
            return Err(Failed);
        }
        let left = &self.bytes[self.at..];
        let n = buffer.len().min(left.len());
        buffer[..n].copy_from_slice(&left[..n]);
        self.at += n;
        if n == 0 && !buffer.is_empty() {
            self.ends = self.ends.saturating_add(1);
        }
        Ok(n)
    }
}
