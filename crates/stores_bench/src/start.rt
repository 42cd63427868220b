// The region in which a row is made.
ghost use Rattle.std.specs.Prelude.{◌≡◌, ◌≤◌, ◌++◌, ℕ, List, [], None, false, length, IfOk};
ghost use Rattle.region_words.specs.Region.{file_size};
ghost use Rattle.region_words.specs.Stores.{filled_up};
ghost use Rattle.region_words.specs.Local.{seat_state};
ghost use Rattle.stores_bench.specs.Start.{IsHeld, IsReady, known_of};

use anyhow::bail;
use expiring_map::Memory;
use lock_rules::{LockKind, Tried};
use region_words::{LocalRegion, LocalSeat, Share, Standing};
use std::alloc::Global;

// The data file's first bytes: the header 0, and a payload. The payload of the record's size, four bytes, has the checksum 0,
// and so has the payload of the header's size, which is empty. Two payloads of this start aren't told apart by their checksums,
// and then nothing is asked of a row but that its stores lie in their files and are its maker's own: no checksum has to be
// looked at to see that the benchmark's rows may be made here. The stores are those that are made in any other region.
const FIRST_BYTES: [u8; 8] = [0, 0, 0, 0, 0x9d, 0x0a, 0xd9, 0x6d];

// The meta file's first words: the checksum 0, the version 3, the sequence 1, and behind four others the size 4.
const RECORD_BYTES: [u8; 32] = [
    0, 0, 0, 0, 3, 0, 0, 0, 1, 0, 0, 0, 0, 0, 0, 0, 0, 0, 0, 0, 0, 0, 0, 0, 0, 0, 0, 0, 4, 0, 0, 0,
];

/// A region whose opener 1 has just taken the lock, and what it knows of the image.
#[derive(Drop)]
pub struct Ready {
    pub seat: LocalSeat,
    pub standing: Standing,
}

/// A region with a data file of at least so many bytes.
pub fn locked_region(alloc: Global, size: usize) -> anyhow::Result<Ready>
    requires { 8 ≤ size }
    ensures ready { IfOk result (λ r. IsReady r.seat r.standing) }
    ensures room { IfOk result (λ r. size ≤ r.standing.file_size) }
{
    let mut seat = held(alloc, size)?;
    let file_size = seat.size()?;
    Ok(Ready {
        seat,
        standing: known_of(file_size),
    })
}

fn held(alloc: Global, size: usize) -> anyhow::Result<LocalSeat>
    requires { 8 ≤ size }
    ensures held { IfOk result IsHeld }
    ensures room { IfOk result (λ s. size ≤ file_size s.region.start) }
{
    let body = body_of(alloc, size)?;
    let meta = record_bytes(alloc)?;
    let mut seat = opened(alloc, body, meta)?;
    match seat.try_lock(LockKind::Exclusive)? {
        Tried::Taken => Ok(seat),
        Tried::Busy(_) => bail!("another holds the lock"),
    }
}

fn body_of(alloc: Global, size: usize) -> Result<Vec<u8>, Memory>
    requires { 8 ≤ size }
    ensures first { IfOk result (λ body. (behind : List ℕ) × (body.items ≡ FIRST_BYTES ++ behind)) }
    ensures size { IfOk result (λ body. length body.items ≡ size) }
{
    let mut body = FIRST_BYTES.to_vec(alloc)?;
    body.resize(size, 0)?;
    Ok(body)
}

fn record_bytes(alloc: Global) -> Result<Vec<u8>, Memory>
    ensures { IfOk result (λ meta. meta.items ≡ RECORD_BYTES) }
{
    Ok(RECORD_BYTES.to_vec(alloc)?)
}

// A region of these files whose opener 1 may make events.
fn opened(alloc: Global, body: Vec<u8>, meta: Vec<u8>) -> anyhow::Result<LocalSeat>
    ensures alive { IfOk result (λ s. (seat_state s).ended ≡ false) }
    ensures free { IfOk result (λ s. (seat_state s).holds ≡ None) }
    ensures maker { IfOk result (λ s. s.who ≡ 1) }
    ensures past { IfOk result (λ s. s.region.past ≡ []) }
    ensures start { IfOk result (λ s. s.region.start ≡ record { data_bytes = filled_up body.items; meta_bytes = filled_up meta.items }) }
{
    let mut region = LocalRegion::new(alloc, body, meta)?;
    region.admit(1)?;
    Ok(region.seat(1))
}

fn known_of(file_size: u32) -> Standing
    ensures { result ≡ known_of file_size }
{
    Standing {
        sequence: 1,
        version: 3,
        flag: false,
        size: 4,
        checksum: 0,
        tail: 0,
        file_size,
    }
}
