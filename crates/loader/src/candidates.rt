// Which image is shown: the candidates in their order, each looked at once its payload is loaded.
ghost use Rattle.std.specs.Prelude.{◌≡◌, ◌<◌, ◌≤◌, ◌+◌, length, IfSome};
ghost use Rattle.region_words.specs.Region.{Region, file_size, size_of};
ghost use Rattle.loader.specs.FirstWords.{AreFirst, IsWritten};
ghost use Rattle.loader.specs.Candidates.{IsFront, NoneBefore, IsWanted, Compares, IfWants, IfShows, Tells, damage_in, turn_of};

use crate::first_words::FirstWords;
use crc_words::crc32;
use meta_record::{Damage, Shown};

/// An image that may be the one shown: of the record's size, the header's or the last confirmed.
#[derive(Clone, Copy, Debug, PartialEq, Eq)]
pub enum Candidate {
    Record,
    Header,
    Last,
}

/// What the payload that is loaded so far tells of one image.
#[derive(Clone, Copy)]
pub enum Compared {
    Unknown,
    Agrees,
    Differs,
}

/// What it tells of all: the candidate whose payload is to be loaded next, or what is shown by checksums.
#[derive(Clone, Copy)]
pub enum Judged {
    Wants(Candidate),
    Shows(Shown),
}

// Whether the image of this size fits the file and has this checksum.
fn compare(file: u32, payload: &[u8], size: u32, checksum: u32) -> Compared
    ensures wants { result ≡ Compared.Unknown → (4 + size ≤ file) × (length payload.now < size) }
    ensures within { result ≡ Compared.Agrees → size ≤ length payload.now }
    ensures empty { size ≡ 0 → checksum ≡ 0 → 4 ≤ file → result ≡ Compared.Agrees }
    ensures told { (r : Region) → file ≡ file_size r → IsFront payload.now r → Compares result r size checksum }
{
    let end = size as usize;
    if 4 + end > file as usize {
        return Compared::Differs;
    }
    if payload.len() < end {
        return Compared::Unknown;
    }
    if crc32(&payload[..end]) == checksum {
        Compared::Agrees
    } else {
        Compared::Differs
    }
}

/// What the words loaded so far tell of the images from this candidate on. Those before it don't agree, and are not looked
/// at again.
pub fn judge(first: &FirstWords, payload: &[u8], from: Candidate) -> Judged
    requires complete { first.now.made ≡ 10 }
    requires written { 0 < turn_of from → IsWritten first.now }
    ensures wants { IfWants result (IsWanted first.now payload.now) }
    ensures within { IfShows result (λ shown. IfSome (size_of shown) (λ size. size ≤ length payload.now)) }
    ensures written { IfShows result (λ shown. IfSome (size_of shown) (λ size. 0 < size → IsWritten first.now)) }
    ensures onward { IfWants result (λ c. turn_of from ≤ turn_of c) }
    ensures told { (r : Region) → AreFirst first.now r → IsFront payload.now r → NoneBefore from r → Tells result r }
{
    match from {
        Candidate::Record => from_record(first, payload),
        Candidate::Header => from_header(first, payload),
        Candidate::Last => from_last(first, payload),
    }
}

fn from_record(first: &FirstWords, payload: &[u8]) -> Judged
    requires { first.now.made ≡ 10 }
    ensures wants { IfWants result (IsWanted first.now payload.now) }
    ensures within { IfShows result (λ shown. IfSome (size_of shown) (λ size. size ≤ length payload.now)) }
    ensures written { IfShows result (λ shown. IfSome (size_of shown) (λ size. 0 < size → IsWritten first.now)) }
    ensures told { (r : Region) → AreFirst first.now r → IsFront payload.now r → Tells result r }
{
    let rec = first.record();
    match compare(first.file_size(), payload, rec.size, rec.checksum) {
        Compared::Unknown => Judged::Wants(Candidate::Record),
        Compared::Agrees => Judged::Shows(Shown::Whole(rec.size)),
        Compared::Differs => from_header(first, payload),
    }
}

fn from_header(first: &FirstWords, payload: &[u8]) -> Judged
    requires complete { first.now.made ≡ 10 }
    requires written { IsWritten first.now }
    ensures wants { IfWants result (IsWanted first.now payload.now) }
    ensures within { IfShows result (λ shown. IfSome (size_of shown) (λ size. size ≤ length payload.now)) }
    ensures onward { IfWants result (λ c. turn_of Candidate.Header ≤ turn_of c) }
    ensures told { (r : Region) → AreFirst first.now r → IsFront payload.now r → NoneBefore Candidate.Header r → Tells result r }
{
    let rec = first.record();
    let size = first.header();
    if size == rec.size {
        return from_last(first, payload);
    }
    match compare(first.file_size(), payload, size, rec.checksum) {
        Compared::Unknown => Judged::Wants(Candidate::Header),
        Compared::Agrees => Judged::Shows(Shown::Header(size)),
        Compared::Differs => from_last(first, payload),
    }
}

fn from_last(first: &FirstWords, payload: &[u8]) -> Judged
    requires complete { first.now.made ≡ 10 }
    requires written { IsWritten first.now }
    ensures wants { IfWants result (IsWanted first.now payload.now) }
    ensures within { IfShows result (λ shown. IfSome (size_of shown) (λ size. size ≤ length payload.now)) }
    ensures onward { IfWants result (λ c. turn_of Candidate.Last ≤ turn_of c) }
    ensures told { (r : Region) → AreFirst first.now r → IsFront payload.now r → NoneBefore Candidate.Last r → Tells result r }
{
    let rec = first.record();
    match compare(first.file_size(), payload, rec.last_size, rec.last_checksum) {
        Compared::Unknown => Judged::Wants(Candidate::Last),
        Compared::Agrees => Judged::Shows(Shown::Last(rec.last_size)),
        Compared::Differs => Judged::Shows(Shown::Damaged(damage(first))),
    }
}

// How a region is damaged of which no image agrees.
fn damage(first: &FirstWords) -> Damage
    ensures { result ≡ damage_in first.now }
{
    if 4 + first.record().size as usize <= first.file_size() as usize {
        Damage::Checksum
    } else {
        Damage::Length
    }
}
