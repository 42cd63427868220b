// The answers of the first ten loads: the size of the data file, the record and the header.
ghost use Rattle.std.specs.Prelude.{◌≡◌, ◌+◌, ◌<◌, ◌≤◌, slice_index, slice_set, length, replicate, nat_lt, false, IfOk, IfErr, OnOk};
ghost use Rattle.kv_pairs.specs.Growth.{IsFileSize};
ghost use Rattle.region_words.specs.Region.{Region};
ghost use Rattle.region_words.specs.Told.{OnTold};
ghost use Rattle.region_words.specs.Past.{region_after};
ghost use Rattle.region_words.specs.Share.{IsSound, Goes, Stops, loaded};
ghost use Rattle.loader.specs.FirstWords.{AreFirst, record_in, header_in, size_in, first_answers, standing_in, HasWords};
ghost use Rattle.region_words.specs.Standings.{tail_of};

use meta_record::{
    Record, WORD_CHECKSUM, WORD_FLAGS_HIGH, WORD_FLAGS_LOW, WORD_LAST_CHECKSUM, WORD_LAST_SIZE,
    WORD_SEQUENCE, WORD_SIZE, WORD_VERSION,
};
use region_words::{Share, ShareStop, Side, Standing};

/// The words that are loaded after the size of the data file, in their order.
const PLACES: [(Side, u32); 9] = [
    (Side::Meta, WORD_VERSION as u32),
    (Side::Meta, WORD_FLAGS_LOW as u32),
    (Side::Meta, WORD_FLAGS_HIGH as u32),
    (Side::Meta, WORD_CHECKSUM as u32),
    (Side::Meta, WORD_SEQUENCE as u32),
    (Side::Meta, WORD_SIZE as u32),
    (Side::Meta, WORD_LAST_SIZE as u32),
    (Side::Meta, WORD_LAST_CHECKSUM as u32),
    (Side::Data, 0),
];

/// The answers of the first loads, the size of the data file before the words; those that were not made yet are 0.
#[derive(Clone, Copy)]
pub struct FirstWords {
    pub answers: [u32; 10],
    pub made: usize,
}

impl FirstWords {
    pub fn none() -> FirstWords
        ensures { result ≡ record { answers = replicate 10 0; made = 0 } }
    {
        FirstWords {
            answers: [0; 10],
            made: 0,
        }
    }

    pub fn are_complete(&self) -> bool
        requires { self.now.made ≤ 10 }
        ensures { result ≡ nat_lt 9 self.now.made }
    {
        self.made > 9
    }

    /// The next of these loads.
    pub fn ask<S: Share>(&self, share: &mut S) -> Result<u32, ShareStop>
        requires going { self.now.made < 10 }
        requires alive { (S.state share.old).ended ≡ false }
        requires sound { IsSound (S.state share.old) }
        ensures ok { OnOk result (Goes (loaded (S.state share.old)) (S.state share.old) (S.state share.new)) }
        ensures value { IfOk result (λ value. OnTold (S.state share.new).told (λ h. value ≡ slice_index (first_answers (region_after h.start h.past)) self.now.made)) }
        ensures size { IfOk result (λ value. self.now.made ≡ 0 → IsFileSize value) }
        ensures err { IfErr result (λ stop. Stops stop (S.state share.old) (S.state share.new)) }
    {
        if self.made == 0 {
            return share.size();
        }
        let (side, word) = PLACES[self.made - 1];
        share.load(side, word)
    }

    /// These answers and the next.
    pub fn with(&self, value: u32) -> FirstWords
        requires { self.now.made < 10 }
        ensures value { result ≡ record { answers = slice_set self.now.answers self.now.made value; made = self.now.made + 1 } }
        ensures told { (r : Region) → AreFirst self.now r → value ≡ slice_index (first_answers r) self.now.made → AreFirst result r }
    {
        let mut next = *self;
        next.answers[self.made] = value;
        next.made += 1;
        next
    }

    /// The size of the data file in bytes.
    pub fn file_size(&self) -> u32
        ensures { result ≡ size_in self.now }
    {
        self.answers[0]
    }

    pub fn record(&self) -> Record
        ensures { result ≡ record_in self.now }
    {
        let low = self.answers[2] as u64;
        let high = self.answers[3] as u64;
        Record {
            version: self.answers[1],
            flags: low + (high << 32),
            checksum: self.answers[4],
            sequence: self.answers[5],
            size: self.answers[6],
            last_size: self.answers[7],
            last_checksum: self.answers[8],
        }
    }

    pub fn header(&self) -> u32
        ensures { result ≡ header_in self.now }
    {
        self.answers[9]
    }

    /// What is to be known of an image with this payload, which has this checksum.
    pub fn standing(&self, payload: &[u8], checksum: u32) -> Standing
        requires { length payload.now ≤ u32.MAX }
        ensures value { result ≡ standing_in self.now payload.now checksum }
        ensures words { HasWords result }
    {
        let rec = self.record();
        Standing {
            sequence: rec.sequence,
            version: rec.version,
            flag: rec.flags == 1,
            size: payload.len() as u32,
            checksum,
            tail: tail_of(payload),
            file_size: self.file_size(),
        }
    }
}

// The word in which the next byte of this payload would stand, with zeros from there on.
pub fn tail_of(payload: &[u8]) -> u32
    ensures { result ≡ tail_of payload.now (length payload.now) }
{
    let begun = &payload[payload.len() / 4 * 4..];
    let mut word = [0; 4];
    word[..begun.len()].copy_from_slice(begun);
    u32::from_le_bytes(word)
}
