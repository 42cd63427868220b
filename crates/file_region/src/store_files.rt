// The two open files of a store, with what is kept of them in memory while the lock is held.
ghost use Rattle.std.specs.Prelude.{◌≡◌, ◌≢◌, ℕ, Some, None, Ok, ◌<◌, ◌≤◌, ◌%◌, ◌==◌, if◌then◌else◌, [], IfOk, OnOk};
ghost use Rattle.kv_pairs.specs.Growth.{largest};
ghost use Rattle.meta_record.specs.Words.{torn};
ghost use Rattle.file_region.specs.Pages.{stores_of, seen, word_seen, Gathers};

use crate::gathered::Gathered;
use crate::placed::{read_word, write_word};
use crate::shared_file::SharedFile;
use crate::window::Window;
use kv_pairs::LARGEST_FILE;
use lock_rules::LockKind;
use region_words::{Side, TornStore};
use std::alloc::{AllocError, Global};
use std::io;
use std::io::{Error, ErrorKind};

const PAGE: u64 = 4096;

const DATA_PAGES: usize = 16;

/// The two open files of a store. The lock is that of the meta file. While it is held, words are loaded from pages that
/// were read once, and stores of neighbouring payload words are gathered: they are written before any other store,
/// before a growth, and before the lock is given up. So the files hold at any moment a front of the stores.
#[derive(Drop)]
pub struct StoreFiles<F: SharedFile> {
    data: F,
    meta: F,
    data_pages: Window,
    meta_page: Window,
    gathered: Gathered,
}

impl<F: SharedFile> StoreFiles<F> {
    /// Nothing of them is kept yet.
    pub fn new(alloc: Global, data: F, meta: F) -> Result<StoreFiles<F>, AllocError>
        ensures { IfOk result (λ files. stores_of files.gathered ≡ []) }
    {
        Ok(StoreFiles {
            data,
            meta,
            data_pages: Window::new(alloc, DATA_PAGES)?,
            meta_page: Window::new(alloc, 1)?,
            gathered: Gathered::new(alloc)?,
        })
    }

    /// Fills both files up with zeros to whole pages, where the lock that this wants can be had at once.
    pub fn fill_up(&mut self) -> io::Result<()> {
        if !self.are_whole()? && self.ask_lock(LockKind::Exclusive)? {
            self.give_up_lock()?;
        }
        Ok(())
    }

    /// Asks once for the lock, and says whether it was had. Files that aren't whole pages yet are filled up under it, so
    /// then it is the exclusive one in any case.
    pub fn ask_lock(&mut self, kind: LockKind) -> io::Result<bool> {
        let whole = self.are_whole()?;
        let kind = if whole { kind } else { LockKind::Exclusive };
        if !self.meta.ask_lock(kind)? {
            return Ok(false);
        }
        if !whole {
            fill_up(&self.data)?;
            fill_up(&self.meta)?;
        }
        Ok(true)
    }

    /// Writes what is gathered, gives the lock up, and keeps nothing of the files.
    pub fn give_up_lock(&mut self) -> io::Result<()>
        ensures gathered { OnOk result (stores_of self.new.gathered ≡ []) }
        ensures data_pages { OnOk result ((word : ℕ) → word_seen self.new.data_pages word ≡ None) }
        ensures meta_page { OnOk result ((word : ℕ) → word_seen self.new.meta_page word ≡ None) }
    {
        self.write_gathered()?;
        self.forget_pages();
        self.meta.give_up_lock()
    }

    /// Gives the lock up and writes nothing more.
    pub fn abandon(&mut self) {
        self.forget_pages();
        let _ = self.meta.give_up_lock();
    }

    /// The data file's length, which is whole pages and within the limit.
    pub fn size(&mut self) -> io::Result<u32>
        ensures pages { IfOk result (λ size. (size % 4096 ≡ 0) × (0 < size) × (size ≤ largest)) }
        ensures gathered { OnOk result (stores_of self.new.gathered ≡ []) }
    {
        self.write_gathered()?;
        whole_size(self.data.metadata()?.len())
    }

    /// A word as it stands in its file.
    pub fn read(&self, side: Side, word: u32) -> io::Result<u32> {
        match side {
            Side::Data => read_word(&self.data, word),
            Side::Meta => read_word(&self.meta, word),
        }
    }

    /// A word under the lock.
    pub fn load(&mut self, side: Side, word: u32) -> io::Result<u32>
        ensures { (value : ℕ) → seen side self.old.data_pages self.old.meta_page word ≡ Some value → result ≡ Ok value }
    {
        let seen = match side {
            Side::Data => self.data_pages.word(word),
            Side::Meta => self.meta_page.word(word),
        };
        match seen {
            Some(value) => Ok(value),
            None => self.load_anew(side, word),
        }
    }

    // What is gathered is written first, so that the pages that are read show it.
    fn load_anew(&mut self, side: Side, word: u32) -> io::Result<u32> {
        self.write_gathered()?;
        let seen = match side {
            Side::Data => {
                self.data_pages.read(&self.data, word)?;
                self.data_pages.word(word)
            }
            Side::Meta => {
                self.meta_page.read(&self.meta, word)?;
                self.meta_page.word(word)
            }
        };
        seen.ok_or(Error::from(ErrorKind::UnexpectedEof))
    }

    /// Stores a word. That of the payload is gathered, any other is written.
    pub fn store(&mut self, side: Side, word: u32, value: u32) -> io::Result<()>
        ensures gathered { OnOk result (Gathers side word value self.old.gathered self.new.gathered) }
        ensures seen { OnOk result (seen side self.new.data_pages self.new.meta_page word ≢ None → seen side self.new.data_pages self.new.meta_page word ≡ Some value) }
    {
        match side {
            Side::Data => self.store_data(word, value),
            Side::Meta => {
                self.write_gathered()?;
                write_word(&self.meta, word, value)?;
                self.meta_page.see(word, value);
                Ok(())
            }
        }
    }

    fn store_data(&mut self, word: u32, value: u32) -> io::Result<()>
        ensures gathered { OnOk result (Gathers Side.Data word value self.old.gathered self.new.gathered) }
        ensures seen { OnOk result (word_seen self.new.data_pages word ≢ None → word_seen self.new.data_pages word ≡ Some value) }
    {
        if word == 0 {
            self.write_gathered()?;
            write_word(&self.data, word, value)?;
        } else if !self.gathered.take_in(word, value) {
            self.write_gathered()?;
            self.gathered.take_in(word, value);
        }
        self.data_pages.see(word, value);
        Ok(())
    }

    /// Tears a payload word: the bytes on which it agrees with the new one stand, the others become those of the bits.
    pub fn tear(&mut self, store: TornStore) -> io::Result<()> {
        self.write_gathered()?;
        let old = read_word(&self.data, store.word)?;
        write_word(
            &self.data,
            store.word,
            torn_value(old, store.new, store.bits),
        )
    }

    /// Adds zeros to the data file up to this size.
    pub fn grow(&mut self, size: u32) -> io::Result<()>
        ensures { OnOk result (stores_of self.new.gathered ≡ []) }
    {
        self.write_gathered()?;
        let size = u64::from(size);
        if self.data.metadata()?.len() < size {
            self.data.set_len(size)?;
        }
        Ok(())
    }

    fn write_gathered(&mut self) -> io::Result<()>
        ensures { OnOk result (stores_of self.new.gathered ≡ []) }
    {
        self.gathered.write_to(&self.data)
    }

    fn forget_pages(&mut self)
        ensures gathered { stores_of self.new.gathered ≡ stores_of self.old.gathered }
        ensures data_pages { (word : ℕ) → word_seen self.new.data_pages word ≡ None }
        ensures meta_page { (word : ℕ) → word_seen self.new.meta_page word ≡ None }
    {
        self.data_pages.empty();
        self.meta_page.empty();
    }

    fn are_whole(&self) -> io::Result<bool> {
        Ok(is_whole(&self.data)? && is_whole(&self.meta)?)
    }
}

fn is_whole<F: SharedFile>(file: &F) -> io::Result<bool> {
    let length = file.metadata()?.len();
    Ok(filled_up(length) == length)
}

fn fill_up<F: SharedFile>(file: &F) -> io::Result<()> {
    let length = file.metadata()?.len();
    let whole = filled_up(length);
    if length < whole {
        file.set_len(whole)?;
    }
    Ok(())
}

// The whole pages that a file of this length counts as.
fn filled_up(length: u64) -> u64 {
    length.div_ceil(PAGE).max(1).saturating_mul(PAGE)
}

// A length, where it is whole pages and within the limit.
fn whole_size(length: u64) -> io::Result<u32>
    ensures same { IfOk result (λ size. size ≡ length) }
    ensures pages { IfOk result (λ size. (size % 4096 ≡ 0) × (0 < size) × (size ≤ largest)) }
{
    if length == 0 || length % PAGE != 0 || length > u64::from(LARGEST_FILE) {
        return Err(Error::from(ErrorKind::InvalidData));
    }
    Ok(length as u32)
}

// What a death leaves of a store: the bytes on which the old and the new word agree, and else those of the bits.
fn torn_value(old: u32, new: u32, bits: u32) -> u32
    ensures { result ≡ torn old new bits }
{
    let old = old.to_le_bytes();
    let new = new.to_le_bytes();
    let bits = bits.to_le_bytes();
    u32::from_le_bytes([
        torn_byte(old[0], new[0], bits[0]),
        torn_byte(old[1], new[1], bits[1]),
        torn_byte(old[2], new[2], bits[2]),
        torn_byte(old[3], new[3], bits[3]),
    ])
}

fn torn_byte(old: u8, new: u8, bits: u8) -> u8
    ensures { result ≡ (if old == new then old else bits) }
{
    if old == new { old } else { bits }
}
