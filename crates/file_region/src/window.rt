// A few pages of a file, as they were read and as they were stored since.
ghost use Rattle.std.specs.Prelude.{◌≡◌, ◌≢◌, ◌<◌, ◌≤◌, ◌*◌, ◌-◌, ◌+◌, ℕ, Some, None, length, IfOk, OnOk};
ghost use Rattle.file_region.specs.Pages.{shows_in, word_seen};

use crate::placed::read_front;
use meta_record::{load_word, store_word};
use std::alloc::{AllocError, Global};
use std::io;
use std::os::unix::fs::FileExt;

const PAGE: usize = 4096;

const WORDS_OF_A_PAGE: u32 = 1024;

/// A few pages of a file, as they were read and as they were stored since. It may be empty.
#[derive(Drop)]
pub struct Window {
    // the first of its words
    first: u32,
    // the bytes from that word on, behind which others may stand that mean nothing
    bytes: Vec<u8>,
    filled: usize,
}

impl Window {
    /// It is empty, and has room for so many pages.
    pub fn new(alloc: Global, pages: usize) -> Result<Window, AllocError>
        requires { pages ≤ 1024 }
        ensures empty { IfOk result (λ window. (word : ℕ) → word_seen window word ≡ None) }
        ensures room { IfOk result (λ window. length window.bytes.items ≡ 4096 * pages) }
    {
        let bytes = vec![in alloc; 0u8; pages * PAGE]?;
        Ok(Window {
            first: 0,
            bytes,
            filled: 0,
        })
    }

    /// A word, where the window shows it.
    pub fn word(&self, word: u32) -> Option<u32>
        ensures { result ≡ word_seen self.now word }
    {
        if self.shows(word) {
            Some(load_word(&self.bytes, (word - self.first) as usize))
        } else {
            None
        }
    }

    /// Sees a word that was stored, where the window shows it.
    pub fn see(&mut self, word: u32, value: u32)
        ensures word { word_seen self.new word ≢ None → word_seen self.new word ≡ Some value }
        ensures others { (other : ℕ) → other ≢ word → word_seen self.new other ≡ word_seen self.old other }
    {
        if self.shows(word) {
            let place = (word - self.first) as usize;
            store_word(&mut self.bytes, place, value);
        }
    }

    /// Shows nothing any more.
    pub fn empty(&mut self)
        ensures { (word : ℕ) → word_seen self.new word ≡ None }
    {
        self.filled = 0;
    }

    /// Reads the page of a word and the next ones, as far as the window has room and the file goes.
    pub fn read<F: FileExt>(&mut self, file: &F, word: u32) -> io::Result<()> {
        self.filled = 0;
        self.first = word - word % WORDS_OF_A_PAGE;
        self.filled = read_front(file, self.first, &mut self.bytes)?;
        Ok(())
    }

    fn shows(&self, word: u32) -> bool
        ensures { result ≡ shows_in self.now.first self.now.filled self.now.bytes.items word }
    {
        match word.checked_sub(self.first) {
            Some(place) => 4 * place as usize + 4 <= self.filled.min(self.bytes.len()),
            None => false,
        }
    }
}
