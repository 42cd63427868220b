// A region as it is printed.
ghost use Rattle.std.specs.Prelude.{◌≡◌, ◌++◌, ◌≤◌, OnOk, OnErr, IfOk, IsOk, string_bytes, length};
ghost use Rattle.std.specs.FinMap as fin;
ghost use Rattle.expiring_map.specs.Map.{pairs_of};
ghost use Rattle.expiring_map.specs.Lent.{lent};
ghost use Rattle.region_words.specs.Region.{region_of, shown, base, header, record_of, IsAccepted};
ghost use Rattle.script_lang.specs.Texts as text;
ghost use Rattle.script_lang.specs.Written.{BeginsWith};

use crate::answers::damage_text;
use crate::words::{checksum_word, hex_word};
use expiring_map::{ExpiringMap, Memory, PairRef};
use meta_record::{Record, Shown, load_word, record_of};
use region_words::{base_map, shown};
use std::alloc::{AllocError, Global};

/// Appends what a region of these data and meta bytes shows. After `Memory` `out` is as before.
pub fn region_text(alloc: Global, body: &[u8], meta: &[u8], out: &mut Vec<u8>) -> Result<(), Memory>
    requires data { 4 ≤ length body.now }
    requires meta { 112 ≤ length meta.now }
    requires accepted { IsAccepted (region_of body.now meta.now) }
    ensures ok { OnOk result (out.new.items ≡ out.old.items ++ text.region_text (region_of body.now meta.now)) }
    ensures memory { OnErr result (out.new.items ≡ out.old.items) }
{
    match shown(body, meta) {
        Ok(shown) => shown_region_text(alloc, body, meta, shown, out),
        Err(_) => unreachable!(),
    }
}

/// The same where it is known already what the region shows.
pub fn shown_region_text(
    alloc: Global,
    body: &[u8],
    meta: &[u8],
    seen: Shown,
    out: &mut Vec<u8>,
) -> Result<(), Memory>
    requires data { 4 ≤ length body.now }
    requires meta { 112 ≤ length meta.now }
    requires seen { seen ≡ shown (region_of body.now meta.now) }
    ensures ok { OnOk result (out.new.items ≡ out.old.items ++ text.region_text (region_of body.now meta.now)) }
    ensures memory { OnErr result (out.new.items ≡ out.old.items) }
{
    let before = out.len();
    let pushed = push_region(alloc, body, meta, seen, out);
    if pushed.is_err() {
        out.truncate(before);
    }
    pushed
}

// After `Memory` a front of the text may stand.
fn push_region(
    alloc: Global,
    body: &[u8],
    meta: &[u8],
    seen: Shown,
    out: &mut Vec<u8>,
) -> Result<(), Memory>
    requires data { 4 ≤ length body.now }
    requires meta { 112 ≤ length meta.now }
    requires seen { seen ≡ shown (region_of body.now meta.now) }
    ensures ok { OnOk result (out.new.items ≡ out.old.items ++ text.region_text (region_of body.now meta.now)) }
    ensures memory { OnErr result (BeginsWith out.new.items out.old.items) }
{
    let head = head_text(alloc, body, meta, seen)?;
    out.extend_from_slice(head.as_bytes())?;
    push_base(alloc, body, meta, seen, out)
}

fn head_text(alloc: Global, body: &[u8], meta: &[u8], seen: Shown) -> Result<String, AllocError>
    requires data { 4 ≤ length body.now }
    requires meta { 112 ≤ length meta.now }
    ensures { IfOk result (λ t. string_bytes t ≡ text.record_text (length body.now) (header (region_of body.now meta.now)) (record_of (region_of body.now meta.now)) seen) }
{
    record_text(
        alloc,
        body.len(),
        load_word(body, 0),
        &record_of(meta),
        seen,
    )
}

// The pairs of the image shown. After `Memory` a front of the text may stand.
fn push_base(
    alloc: Global,
    body: &[u8],
    meta: &[u8],
    seen: Shown,
    out: &mut Vec<u8>,
) -> Result<(), Memory>
    requires data { 4 ≤ length body.now }
    requires meta { 112 ≤ length meta.now }
    requires seen { seen ≡ shown (region_of body.now meta.now) }
    ensures ok { OnOk result (out.new.items ≡ out.old.items ++ text.pairs_text (pairs_of (base (region_of body.now meta.now)))) }
    ensures memory { OnErr result (BeginsWith out.new.items out.old.items) }
{
    let map = base_map(alloc, body, meta, seen)?;
    push_pairs(alloc, &map, out)
}

fn record_text(
    alloc: Global,
    file_size: usize,
    header: u32,
    rec: &Record,
    shown: Shown,
) -> Result<String, AllocError>
    ensures { IfOk result (λ t. string_bytes t ≡ text.record_text file_size header rec.now shown) }
{
    let mut text = region_line(alloc, file_size, rec)?;
    text.push_str(sizes_line(alloc, header, rec)?.as_str())?;
    text.push_str(checksums_line(alloc, rec)?.as_str())?;
    text.push_str(shown_line(alloc, shown)?.as_str())?;
    Ok(text)
}

#[tactic(auto, unfolding(crate::specs::Texts::region_line))]
fn region_line(alloc: Global, file_size: usize, rec: &Record) -> Result<String, AllocError>
    ensures { IfOk result (λ t. string_bytes t ≡ text.region_line file_size rec.now) }
{
    format!(in alloc;
        "region data {file_size} version {} sequence {} flags {}\n",
        rec.version, rec.sequence, rec.flags
    )
}

#[tactic(auto, unfolding(crate::specs::Texts::sizes_line))]
fn sizes_line(alloc: Global, header: u32, rec: &Record) -> Result<String, AllocError>
    ensures { IfOk result (λ t. string_bytes t ≡ text.sizes_line header rec.now) }
{
    format!(in alloc;
        "sizes header {header} record {} last {}\n",
        rec.size, rec.last_size
    )
}

#[tactic(auto, unfolding(crate::specs::Texts::checksums_line))]
fn checksums_line(alloc: Global, rec: &Record) -> Result<String, AllocError>
    ensures { IfOk result (λ t. string_bytes t ≡ text.checksums_line rec.now) }
{
    let of_record = checksum_word(alloc, rec.checksum)?;
    let of_last = checksum_word(alloc, rec.last_checksum)?;
    format!(in alloc; "checksums record {of_record} last {of_last}\n")
}

#[tactic(auto, unfolding(crate::specs::Texts::shown_line))]
fn shown_line(alloc: Global, shown: Shown) -> Result<String, AllocError>
    ensures { IfOk result (λ t. string_bytes t ≡ text.shown_line shown) }
{
    match shown {
        Shown::Whole(size) => format!(in alloc; "shown whole {size}\n"),
        Shown::Header(size) => format!(in alloc; "shown header {size}\n"),
        Shown::Last(size) => format!(in alloc; "shown last {size}\n"),
        Shown::Damaged(damage) => format!(in alloc; "shown {}\n", damage_text(damage)),
    }
}

fn pair_line(alloc: Global, pair: PairRef<'_>) -> Result<String, AllocError>
    ensures { IfOk result (λ t. string_bytes t ≡ text.pair_line (lent pair.entry)) }
{
    let key = hex_word(alloc, pair.key)?;
    let value = hex_word(alloc, pair.value)?;
    format!(in alloc; "pair {key} {value} {}\n", pair.expiry)
}

// After `Memory` a front of the text may stand.
fn push_pairs(alloc: Global, map: &ExpiringMap, out: &mut Vec<u8>) -> Result<(), Memory>
    ensures ok { OnOk result (out.new.items ≡ out.old.items ++ text.pairs_text (pairs_of map.now)) }
    ensures memory { OnErr result (BeginsWith out.new.items out.old.items) }
{
    let head = format!(in alloc; "pairs {}\n", map.len())?;
    out.extend_from_slice(head.as_bytes())?;
    for pair in map.iter() {
        let line = pair_line(alloc, pair)?;
        out.extend_from_slice(line.as_bytes())?;
    }
    Ok(())
}
