// The answers of a partial load's first loads: three words of the record.
ghost use Rattle.std.specs.Prelude.{◌≡◌, ◌+◌, ◌<◌, false, slice_index, slice_set, replicate, IfOk, IfErr, OnOk};
ghost use Rattle.region_words.specs.Region.{Region};
ghost use Rattle.region_words.specs.Told.{OnTold};
ghost use Rattle.region_words.specs.Past.{region_after};
ghost use Rattle.region_words.specs.Share.{IsSound, Goes, Stops, loaded};
ghost use Rattle.loader.specs.PartialLoads.{AreRecordWords, record_words};

use meta_record::{WORD_CHECKSUM, WORD_SEQUENCE, WORD_SIZE};
use region_words::{Share, ShareStop, Side};

/// The words in their order.
const PLACES: [u32; 3] = [WORD_CHECKSUM as u32, WORD_SEQUENCE as u32, WORD_SIZE as u32];

/// The answers; those that were not made yet are 0.
#[derive(Clone, Copy)]
pub struct RecordWords {
    pub answers: [u32; 3],
    pub made: usize,
}

impl RecordWords {
    pub fn none() -> RecordWords
        ensures { result ≡ record { answers = replicate 3 0; made = 0 } }
    {
        RecordWords {
            answers: [0; 3],
            made: 0,
        }
    }

    /// The next of these loads.
    pub fn ask<S: Share>(&self, share: &mut S) -> Result<u32, ShareStop>
        requires going { self.now.made < 3 }
        requires alive { (S.state share.old).ended ≡ false }
        requires sound { IsSound (S.state share.old) }
        ensures ok { OnOk result (Goes (loaded (S.state share.old)) (S.state share.old) (S.state share.new)) }
        ensures value { IfOk result (λ value. OnTold (S.state share.new).told (λ h. value ≡ slice_index (record_words (region_after h.start h.past)) self.now.made)) }
        ensures err { IfErr result (λ stop. Stops stop (S.state share.old) (S.state share.new)) }
    {
        share.load(Side::Meta, PLACES[self.made])
    }

    /// These answers and the next.
    pub fn with(&self, value: u32) -> RecordWords
        requires { self.now.made < 3 }
        ensures value { result ≡ record { answers = slice_set self.now.answers self.now.made value; made = self.now.made + 1 } }
        ensures told { (r : Region) → AreRecordWords self.now r → value ≡ slice_index (record_words r) self.now.made → AreRecordWords result r }
    {
        let mut next = *self;
        next.answers[self.made] = value;
        next.made += 1;
        next
    }

    pub fn checksum(&self) -> u32
        ensures { result ≡ slice_index self.now.answers 0 }
    {
        self.answers[0]
    }

    pub fn sequence(&self) -> u32
        ensures { result ≡ slice_index self.now.answers 1 }
    {
        self.answers[1]
    }

    pub fn size(&self) -> u32
        ensures { result ≡ slice_index self.now.answers 2 }
    {
        self.answers[2]
    }
}
