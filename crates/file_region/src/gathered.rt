// Stores of neighbouring words that are still to be written.
ghost use Rattle.std.specs.Prelude.{◌≡◌, ◌+◌, ◌==◌, ◌++◌, ◌∷◌, [], true, length, OnOk, IfOk, if◌then◌else◌};
ghost use Rattle.file_region.specs.Pages.{Run, stores_of};

use crate::placed::write_whole;
use std::alloc::{AllocError, Global};
use std::io;
use std::marker::Model;
use std::os::unix::fs::FileExt;

const MOST_WORDS: usize = 1024;

const PAGE: usize = 4 * MOST_WORDS;

/// Stores of neighbouring words in their order, a page of them at most.
#[derive(Drop)]
pub struct Gathered {
    first: u32,
    words: Vec<u32>,
}

impl Model for Gathered {
    ghost use Rattle.std.specs.Prelude.{◌≤◌, length, vec_capacity};
    ghost use Rattle.file_region.specs.Pages.{Run};

    ghost Value = { Run };

    ghost view = { λ g. record { first = g.first; words = g.words.items } };

    ghost invariant = { λ g. (length g.words.items ≤ 1024) × (1024 ≤ vec_capacity g.words) };
}

impl Gathered {
    /// None.
    pub fn new(alloc: Global) -> Result<Gathered, AllocError>
        ensures { IfOk result (λ g. stores_of g ≡ []) }
    {
        Ok(Gathered {
            first: 0,
            words: Vec::with_capacity(alloc, MOST_WORDS)?,
        })
    }

    /// Takes a store in where it is the right neighbour of the last one and there is room, and says whether it does.
    pub fn take_in(&mut self, word: u32, value: u32) -> bool
        ensures stores { stores_of self.new ≡ (if result then stores_of self.old ++ (word, value) ∷ [] else stores_of self.old) }
        ensures first { stores_of self.old ≡ [] → result ≡ true }
    {
        if self.words.is_empty() {
            self.begin(word, value);
            return true;
        }
        if !self.is_next(word) || self.words.len() == MOST_WORDS {
            return false;
        }
        self.words.push_reserved(value);
        true
    }

    fn begin(&mut self, word: u32, value: u32)
        requires { self.old.words ≡ [] }
        ensures { stores_of self.new ≡ (word, value) ∷ [] }
    {
        self.first = word;
        self.words.push_reserved(value);
    }

    /// Writes all of them.
    pub fn write_to<F: FileExt>(&mut self, file: &F) -> io::Result<()>
        ensures { OnOk result (stores_of self.new ≡ []) }
    {
        if !self.words.is_empty() {
            self.write_page(file)?;
            self.words.clear();
        }
        Ok(())
    }

    fn write_page<F: FileExt>(&self, file: &F) -> io::Result<()> {
        let mut bytes = [0; PAGE];
        for (place, word) in bytes.chunks_exact_mut(4).zip(self.words.iter()) {
            place.copy_from_slice(&word.to_le_bytes());
        }
        write_whole(file, self.first, &bytes[..4 * self.words.len()])
    }

    fn is_next(&self, word: u32) -> bool
        ensures { result ≡ (self.now.first + length self.now.words == word) }
    {
        self.first as usize + self.words.len() == word as usize
    }
}
