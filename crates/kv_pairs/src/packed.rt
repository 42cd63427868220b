// Writing items, one by one or all those of a map.
ghost use Rattle.std.specs.Prelude.{◌≡◌, ◌≢◌, ℕ, ◌+◌, ◌^◌, ◌<◌, ◌≤◌, ◌++◌, ◌==◌, Bool, List, [], Some, IfOk, OnOk, OnErr, length, take, if◌then◌else◌};
ghost use Rattle.expiring_map.specs.ValueUntil.{ValueUntil};
ghost use Rattle.expiring_map.specs.Map.{Map, value_until};
ghost use Rattle.kv_pairs.specs.Lengths.{shortest};
ghost use Rattle.kv_pairs.specs.declared.packed.TheConstants.{LONGEST_FIELD};
ghost use Rattle.kv_pairs.specs.Mapped.{written_item, packed, packed_size, map_in, IsSmall, IsPackable};

use crate::length::{length_size, write_length};
use expiring_map::{ExpiringMap, Memory};

/// The most bytes of a key, or of a value, of which an item is written.
pub const LONGEST_FIELD: usize = 134_217_728;

// Where a payload begins: 0x00FFFFFF as a length, which counts for nothing.
const HEADING: [u8; 4] = [0xff, 0xff, 0xff, 0x07];

/// The bytes of an item with a key and a value of so many bytes. No value is a removal.
pub fn item_size(flag: bool, key: u32, value: u32) -> u64
    requires key { key ≤ LONGEST_FIELD }
    requires value { value ≤ LONGEST_FIELD }
    ensures size { (bytes : List ℕ) (d : ValueUntil) → length bytes ≡ key → length d.value ≡ value → result ≡ length (written_item flag bytes d) }
    ensures most { result ≤ key + value + 14 }
{
    prefixed_size(key) + prefixed_size(stored_size(flag, value))
}

/// Appends the item that gives a key this value, or removes it where the value is empty. The expiry is a
/// second, 0 for never. After `Memory` nothing was appended.
pub fn append_item(
    flag: bool,
    key: &[u8],
    value: &[u8],
    expiry: u32,
    out: &mut Vec<u8>,
) -> Result<(), Memory>
    requires some { key.now ≢ [] }
    requires key { length key.now ≤ LONGEST_FIELD }
    requires value { length value.now ≤ LONGEST_FIELD }
    ensures ok { OnOk result (out.new.items ≡ out.old.items ++ written_item flag key.now (value_until value.now expiry)) }
    ensures err { OnErr result (out.new.items ≡ out.old.items) }
{
    let before = out.len();
    let written = write_item(flag, key, value, expiry, out);
    if written.is_err() {
        out.truncate(before);
    }
    written
}

// The bytes of a text of this size with its length before it.
fn prefixed_size(size: u32) -> u64
    requires { size < 2 ^ 31 }
    ensures size { result ≡ length (shortest size) + size }
    ensures most { result ≤ size + 5 }
{
    length_size(size) as u64 + u64::from(size)
}

// The bytes that are written for a value of this size: with the flag, its expiry takes four more.
fn stored_size(flag: bool, value: u32) -> u32
    requires { value ≤ LONGEST_FIELD }
    ensures { result ≡ (if value == 0 then 0 else (if flag then value + 4 else value)) }
{
    if flag && value > 0 { value + 4 } else { value }
}

// Appends an item. After `Memory` a part of it may stand at the end.
fn write_item(
    flag: bool,
    key: &[u8],
    value: &[u8],
    expiry: u32,
    out: &mut Vec<u8>,
) -> Result<(), Memory>
    requires key { length key.now ≤ LONGEST_FIELD }
    requires value { length value.now ≤ LONGEST_FIELD }
    ensures ok { OnOk result (out.new.items ≡ out.old.items ++ written_item flag key.now (value_until value.now expiry)) }
    ensures err { OnErr result (take (length out.old.items) out.new.items ≡ out.old.items) }
{
    out.reserve(item_size(flag, key.len() as u32, value.len() as u32) as usize)?;
    write_length(key.len() as u32, out)?;
    out.extend_from_slice(key)?;
    write_length(stored_size(flag, value.len() as u32), out)?;
    out.extend_from_slice(value)?;
    if flag && !value.is_empty() {
        out.extend_from_slice(&expiry.to_le_bytes())?;
    }
    Ok(())
}

/// The bytes that `pack` appends.
pub fn packed_size(flag: bool, map: &ExpiringMap) -> u64
    requires { IsSmall map.now }
    ensures { result ≡ packed_size flag map.now }
{
    let mut size = HEADING.len() as u64;
    for pair in map.iter() {
        size += item_size(flag, pair.key.len() as u32, pair.value.len() as u32);
    }
    size
}

/// Appends the payload of a map: the heading, and an item for each pair in byte order of keys, those that
/// have expired too. After `Memory` nothing was appended.
pub fn pack(flag: bool, map: &ExpiringMap, out: &mut Vec<u8>) -> Result<(), Memory>
    requires { IsSmall map.now }
    ensures ok { OnOk result (out.new.items ≡ out.old.items ++ packed flag map.now) }
    ensures err { OnErr result (out.new.items ≡ out.old.items) }
{
    let start = out.len();
    let written = write_map(flag, map, out);
    if written.is_err() {
        out.truncate(start);
    }
    written
}

// Appends the payload of a map. After `Memory` a part of it may stand at the end.
fn write_map(flag: bool, map: &ExpiringMap, out: &mut Vec<u8>) -> Result<(), Memory>
    requires { IsSmall map.now }
    ensures ok { OnOk result (out.new.items ≡ out.old.items ++ packed flag map.now) }
    ensures err { OnErr result (take (length out.old.items) out.new.items ≡ out.old.items) }
{
    out.reserve(packed_size(flag, map) as usize)?;
    out.extend_from_slice(&HEADING)?;
    for pair in map.iter() {
        append_item(flag, pair.key, pair.value, pair.expiry, out)?;
    }
    Ok(())
}

/// A packed map is read again: the items of its payload give that map.
pub fn a_packed_map_is_read_again()
    ensures { (flag : Bool) (m : Map) → IsPackable flag m → map_in flag (packed flag m) ≡ Some m }
{}

#[cfg(test)]
mod tests {
    use super::*;
    use expiring_map::{Bytes, Pair};
    use std::alloc::Global;
    use std::test::Fail;

    // The key k with 07 until second 110, and j with 01 for ever.
    fn two_pairs(alloc: Global) -> Result<ExpiringMap, Memory>
        ensures { IfOk result IsSmall }
    {
        let mut map = ExpiringMap::new(alloc);
        map.put(Pair {
            key: Bytes::copy_of(alloc, &[0x6b])?,
            value: Bytes::copy_of(alloc, &[0x07])?,
            expiry: 110,
        })?;
        map.put(Pair {
            key: Bytes::copy_of(alloc, &[0x6a])?,
            value: Bytes::copy_of(alloc, &[0x01])?,
            expiry: 0,
        })?;
        Ok(map)
    }

    #[test]
    fn a_map_is_packed_in_byte_order_of_keys(rt: HostRuntime) -> Result<(), Fail> {
        let map = two_pairs(rt.alloc())?;
        let rows: [(bool, &[u8]); 2] = [
            (
                true,
                &[
                    0xff, 0xff, 0xff, 0x07, 0x01, 0x6a, 0x05, 0x01, 0x00, 0x00, 0x00, 0x00, 0x01,
                    0x6b, 0x05, 0x07, 0x6e, 0x00, 0x00, 0x00,
                ],
            ),
            (
                false,
                &[
                    0xff, 0xff, 0xff, 0x07, 0x01, 0x6a, 0x01, 0x01, 0x01, 0x6b, 0x01, 0x07,
                ],
            ),
        ];
        for (flag, want) in rows.iter() {
            let mut out = Vec::new(rt.alloc());
            pack(*flag, &map, &mut out)?;
            assert_eq!(rt; out.as_slice(), *want);
            assert_eq!(rt; packed_size(*flag, &map), want.len() as u64);
        }
        Ok(())
    }

    #[test]
    fn a_removal_has_no_expiry(rt: HostRuntime) -> Result<(), Fail> {
        let mut out = Vec::new(rt.alloc());
        append_item(true, &[0x6b], &[0x07], 110, &mut out)?;
        append_item(true, &[0x6b], &[], 110, &mut out)?;
        append_item(false, &[0x6b], &[0x07], 110, &mut out)?;
        let want = [
            0x01, 0x6b, 0x05, 0x07, 0x6e, 0x00, 0x00, 0x00, 0x01, 0x6b, 0x00, 0x01, 0x6b, 0x01,
            0x07,
        ];
        assert_eq!(rt; out.as_slice(), want.as_slice());
        assert_eq!(rt; item_size(true, 1, 1), 8);
        assert_eq!(rt; item_size(true, 1, 0), 3);
        assert_eq!(rt; item_size(false, 1, 1), 4);
        assert_eq!(rt; item_size(true, 1 << 27, 1 << 27), 268_435_468);
        Ok(())
    }
}
