// The words of a payload, stored one after another.
ghost use Rattle.std.specs.Prelude.{◌≡◌, ◌≢◌, ◌+◌, ◌*◌, ◌<◌, ◌≤◌, ◌^◌, [], length, drop, OnErr, OnOk, IfErr};
ghost use Rattle.region_words.specs.Rows.{stores_from};
ghost use Rattle.region_words.specs.Standings.{words_of, first_of, tail_of};
ghost use Rattle.region_words.specs.Share.{Stops};
ghost use Rattle.region_words.specs.Making.{next_of, IsOwingFirst, MakesFirst};

use crate::event::{Mark, Side};
use crate::next::Next;
use crate::share::Share;
use crate::stops::ShareStop;
use meta_record::load_word;
use std::marker::Model;

/// Bytes that are stored word by word in the data file, as far as they are still to be stored. The last word is filled up
/// with zeros.
#[derive(Drop)]
pub struct PayloadWords {
    first: u32,
    bytes: Vec<u8>,
    stored: usize,
}

impl Model for PayloadWords {
    ghost use Rattle.std.specs.Prelude.{List, drop, length, ◌≤◌, ◌<◌, ◌+◌, ◌*◌, ◌^◌};
    ghost use Rattle.region_words.specs.Rows.{stores_from};
    ghost use Rattle.region_words.specs.Standings.{words_of};
    ghost use Rattle.region_words.specs.declared.event.What.{What};

    ghost Value = { List What };

    ghost view = { λ p. stores_from (p.first + p.stored) (words_of (drop (4 * p.stored) p.bytes.items)) };

    ghost invariant = { λ p. (4 * p.stored ≤ length p.bytes.items + 3) × (4 * p.first + length p.bytes.items + 8 < 2 ^ 32) };
}

impl PayloadWords {
    /// The bytes are stored from this data word on.
    pub fn new(first: u32, bytes: Vec<u8>) -> PayloadWords
        requires { 4 * first + length bytes.items + 8 < 2 ^ 32 }
        ensures { result ≡ stores_from first (words_of bytes.items) }
    {
        PayloadWords {
            first,
            bytes,
            stored: 0,
        }
    }

    /// How many words are left.
    pub fn left(&self) -> usize
        ensures { result ≡ length self.now }
    {
        self.bytes.len().div_ceil(4) - self.stored
    }

    /// The first store that is left.
    pub fn next(&self) -> Next
        ensures { result ≡ next_of self.now }
    {
        if self.left() == 0 {
            return Next::End;
        }
        Next::Store {
            side: Side::Data,
            word: self.first + self.stored as u32,
            value: word_from(&self.bytes, 4 * self.stored),
        }
    }

    /// Stores the first word that is left. After an error it is left still.
    pub fn store_first<S: Share>(&mut self, share: &mut S) -> Result<(), ShareStop>
        requires some { self.old ≢ [] }
        requires owing { IsOwingFirst self.old (S.state share.old) }
        ensures ok { OnOk result (MakesFirst self.old self.new (S.state share.old) (S.state share.new)) }
        ensures err { IfErr result (λ stop. Stops stop (S.state share.old) (S.state share.new)) }
        ensures same { OnErr result (self.new ≡ self.old) }
    {
        let word = self.first + self.stored as u32;
        let value = word_from(&self.bytes, 4 * self.stored);
        match share.store(Side::Data, word, value, Mark::Plain) {
            Ok(()) => {
                self.stored += 1;
                Ok(())
            }
            Err(unstored) => Err(unstored.stop),
        }
    }
}

/// The word in which the byte behind these would stand, with zeros from there on.
pub fn tail_word(bytes: &[u8]) -> u32
    ensures { result ≡ tail_of bytes.now (length bytes.now) }
{
    word_from(bytes, bytes.len() / 4 * 4)
}

// The word that begins with this byte, zeros in the place of bytes that are missing.
fn word_from(bytes: &[u8], at: usize) -> u32
    requires { at ≤ length bytes.now }
    ensures { result ≡ first_of (words_of (drop at bytes.now)) }
{
    let rest = &bytes[at..];
    if rest.len() >= 4 {
        return load_word(rest, 0);
    }
    let mut word = [0u8; 4];
    word[..rest.len()].copy_from_slice(rest);
    load_word(&word, 0)
}
