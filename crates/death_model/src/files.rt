// The two files of a region, which events change.
ghost use Rattle.std.specs.Prelude.{◌≡◌, false, true, IfOk, OnOk, MatchOption};
ghost use Rattle.meta_record.specs.Words.{fits};
ghost use Rattle.region_words.specs.Region.{payload_of, region_of};
ghost use Rattle.region_words.specs.Past.{region_step};
ghost use Rattle.death_model.specs.InRange.{IsInRange};
ghost use Rattle.death_model.specs.FilesInside.{region_in, sizes_of, IsReadable};

use expiring_map::Memory;
use meta_record::{WORD_LAST_SIZE, WORD_SIZE, load_word, store_word};
use region_words::{Side, What};
use std::alloc::Global;

/// The bytes of a region's two files.
#[derive(Debug, Drop)]
pub struct Files {
    pub data: Vec<u8>,
    pub meta: Vec<u8>,
}

// The sizes at which a payload may be taken to stand.
#[derive(Clone, Copy)]
pub(crate) struct Sizes {
    pub(crate) header: u32,
    pub(crate) size: u32,
    pub(crate) last_size: u32,
}

impl Files {
    pub(crate) fn copy_of(alloc: Global, body: &[u8], meta: &[u8]) -> Result<Files, Memory>
        ensures { IfOk result (λ files. region_in files ≡ region_of body.now meta.now) }
    {
        Ok(Files {
            data: body.to_vec(alloc)?,
            meta: meta.to_vec(alloc)?,
        })
    }

    // What an event does to the bytes.
    pub(crate) fn apply(&mut self, what: &What) -> Result<(), Memory>
        requires { IsInRange (region_in self.old) what.now }
        ensures { OnOk result (region_in self.new ≡ region_step (region_in self.old) what.now) }
    {
        match what {
            What::Store {
                side: Side::Data,
                word,
                value,
                mark: _,
            } => store_word(&mut self.data, *word as usize, *value),
            What::Store {
                side: Side::Meta,
                word,
                value,
                mark: _,
            } => store_word(&mut self.meta, *word as usize, *value),
            What::Grow { size } => self.data.resize(*size as usize, 0)?,
            What::Died { torn: Some(torn) } => {
                store_word(&mut self.data, torn.word as usize, torn.value);
            }
            _ => {}
        }
        Ok(())
    }

    pub(crate) fn sizes(&self) -> Sizes
        requires { IsReadable (region_in self.now) }
        ensures { result ≡ sizes_of (region_in self.now) }
    {
        Sizes {
            header: load_word(&self.data, 0),
            size: load_word(&self.meta, WORD_SIZE),
            last_size: load_word(&self.meta, WORD_LAST_SIZE),
        }
    }

    // The payload of this size, where it fits.
    pub(crate) fn payload(&self, size: usize) -> Option<&[u8]>
        ensures { MatchOption result (fits self.now.data.items size ≡ false)
            (λ payload. (fits self.now.data.items size ≡ true) × (payload.now ≡ payload_of (region_in self.now) size)) }
    {
        if size > self.data.len() || self.data.len() - size < 4 {
            return None;
        }
        Some(&self.data[4..4 + size])
    }
}
