// What a region shows, and the map of it.
ghost use Rattle.std.specs.Prelude.{◌≡◌, ◌≤◌, ◌-◌, length, IfOk, take, drop, unwrap_or};
ghost use Rattle.std.specs.FinMap as fin;
ghost use Rattle.meta_record.specs.Words.{payload};
ghost use Rattle.kv_pairs.specs.Mapped.{map_in};
ghost use Rattle.region_words.specs.Region.{region_of, shown, base, size_of, shown_if_accepted};

use expiring_map::{ExpiringMap, Memory};
use kv_pairs::{has_map, read_map};
use meta_record::{Damage, RecordFault, Shown, check_record, load_word, record_of, shown_size};
use std::alloc::Global;

/// What a region of these data and meta bytes shows, or why its record is refused. It takes no memory.
#[tactic(auto, unfolding(crate::specs::Region::shown))]
pub fn shown(body: &[u8], meta: &[u8]) -> Result<Shown, RecordFault>
    requires data { 4 ≤ length body.now }
    requires meta { 112 ≤ length meta.now }
    ensures { result ≡ shown_if_accepted (region_of body.now meta.now) }
{
    let rec = record_of(meta);
    let header = load_word(body, 0);
    check_record(&rec, header)?;
    let shown = shown_size(&rec, header, body);
    let Some(size) = size_of(shown) else {
        return Ok(shown);
    };
    if has_map(rec.flags == 1, payload_of(body, size)) {
        Ok(shown)
    } else {
        Ok(Shown::Damaged(Damage::Content))
    }
}

/// The size of the image shown, in bytes; a damaged region shows none.
pub fn size_of(shown: Shown) -> Option<u32>
    ensures { result ≡ size_of shown }
{
    match shown {
        Shown::Whole(size) | Shown::Header(size) | Shown::Last(size) => Some(size),
        Shown::Damaged(_) => None,
    }
}

// The payload of this size, as far as the bytes go.
fn payload_of(body: &[u8], size: u32) -> &[u8]
    requires { 4 ≤ length body.now }
    ensures { result.now ≡ payload body.now size }
{
    let end = body.len().min(4 + size as usize);
    &body[4..end]
}

/// The map with which a history of the region begins: that of the image shown, or the empty one of a damaged region.
pub fn base_map(alloc: Global, body: &[u8], meta: &[u8], seen: Shown) -> Result<ExpiringMap, Memory>
    requires data { 4 ≤ length body.now }
    requires meta { 112 ≤ length meta.now }
    requires seen { seen ≡ shown (region_of body.now meta.now) }
    ensures { IfOk result (λ map. map ≡ base (region_of body.now meta.now)) }
{
    let flag = record_of(meta).flags == 1;
    match size_of(seen) {
        Some(size) => map_or_empty(alloc, flag, payload_of(body, size)),
        None => Ok(ExpiringMap::new(alloc)),
    }
}

// The map of a payload, empty where it has none.
fn map_or_empty(alloc: Global, flag: bool, payload: &[u8]) -> Result<ExpiringMap, Memory>
    ensures { IfOk result (λ map. map ≡ unwrap_or (map_in flag payload.now) fin.empty) }
{
    match read_map(alloc, flag, payload)? {
        Some(map) => Ok(map),
        None => Ok(ExpiringMap::new(alloc)),
    }
}
