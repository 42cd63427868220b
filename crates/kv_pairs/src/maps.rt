// The map of some items: each key has its last value, and with the flag a value ends with its expiry.
ghost use Rattle.std.specs.Prelude.{◌≡◌, ◌≢◌, ℕ, ◌<◌, true, is_some, Some, None, [], IfOk, IfErr, OnOk, OnErr, length, filter, take};
ghost use Rattle.std.specs.FinMap as fin;
ghost use Rattle.expiring_map.specs.Map.{value_until};
ghost use Rattle.kv_pairs.specs.Mapped.{map_of, with_item, with_items, has_room_for_expiry, first_without_room, map_in, units_fit, unstored};
ghost use Rattle.kv_pairs.specs.Found.{HaveKeys, IfNoMap};

use crate::decode::{ItemsStop, decode_all, read_unit};
use crate::item::{Item, Items};
use crate::length::read_length;
use expiring_map::{Bytes, ExpiringMap, Memory, Pair};
use std::alloc::Global;
use thiserror::Error;

/// Why some items gave no map.
#[derive(Clone, Copy, Debug, PartialEq, Eq, Error)]
pub enum MapStop {
    #[error("the value of item {item} has no room for its expiry")]
    NoMap { item: usize },
    #[error("out of memory")]
    Memory,
}

impl From<Memory> for MapStop {
    ghost use Rattle.std.specs.Prelude.{◌≡◌};
    ghost use Rattle.kv_pairs.specs.declared.maps.MapStop.TheVariants.{Memory};

    ghost from_gives = { λ _ e. e ≡ Memory };

    fn from(_: Memory) -> Self {
        MapStop::Memory
    }
}

/// The map of these items. Their bytes are handed over.
pub fn map_of(alloc: Global, flag: bool, items: Items) -> Result<ExpiringMap, MapStop>
    requires { HaveKeys items }
    ensures ok { IfOk result (λ map. map_of flag items ≡ Some map) }
    ensures none { IfErr result (λ e. IfNoMap e (λ item. map_of flag items ≡ None)) }
    ensures at { IfErr result (λ e. IfNoMap e (λ item. first_without_room flag items ≡ Some item)) }
{
    let mut map = ExpiringMap::new(alloc);
    extend(flag, &mut map, items)?;
    Ok(map)
}

/// The map of those of these items whose values have room for their expiry. Their bytes are handed over.
pub fn map_greedy(alloc: Global, flag: bool, items: Items) -> Result<ExpiringMap, Memory>
    requires { HaveKeys items }
    ensures { IfOk result (λ map. map ≡ with_items flag fin.empty (filter (has_room_for_expiry flag) items)) }
{
    let mut map = ExpiringMap::new(alloc);
    for item in items.into_vec() {
        if has_room(flag, item.value.as_slice()) {
            take_in(flag, &mut map, item)?;
        }
    }
    Ok(map)
}

/// The map of a payload, if it has one.
pub fn read_map(alloc: Global, flag: bool, payload: &[u8]) -> Result<Option<ExpiringMap>, Memory>
    ensures { IfOk result (λ map. map ≡ map_in flag payload.now) }
{
    let items = match decode_all(alloc, payload) {
        Ok(items) => items,
        Err(ItemsStop::NotItems { .. }) => return Ok(None),
        Err(ItemsStop::Memory) => return Err(Memory),
    };
    match map_of(alloc, flag, items) {
        Ok(map) => Ok(Some(map)),
        Err(MapStop::NoMap { .. }) => Ok(None),
        Err(MapStop::Memory) => Err(Memory),
    }
}

/// Brings these items into a map. After `NoMap` the map has the items before the refused one.
pub fn extend(flag: bool, map: &mut ExpiringMap, items: Items) -> Result<(), MapStop>
    requires { HaveKeys items }
    ensures ok { OnOk result (map.new ≡ with_items flag map.old items) }
    ensures all { OnOk result (first_without_room flag items ≡ None) }
    ensures none { IfErr result (λ e. IfNoMap e (λ item. map_of flag items ≡ None)) }
    ensures at { IfErr result (λ e. IfNoMap e (λ item. first_without_room flag items ≡ Some item)) }
    ensures before { IfErr result (λ e. IfNoMap e (λ item. map.new ≡ with_items flag map.old (take item items))) }
    ensures memory { OnErr result ((k : ℕ) × (map.new ≡ with_items flag map.old (take k items))) }
{
    for (place, item) in items.into_vec().into_iter().enumerate() {
        if !has_room(flag, item.value.as_slice()) {
            return Err(MapStop::NoMap { item: place });
        }
        take_in(flag, map, item)?;
    }
    Ok(())
}

// With the flag, a value has room for its expiry and a byte, or is empty.
pub(crate) fn has_room(flag: bool, value: &[u8]) -> bool
    ensures { result ≡ has_room_for_expiry flag (record { key = []; value = value.now }) }
{
    !flag || value.is_empty() || value.len() > 4
}

// Brings an item into the map: its value comes in, or its key goes out.
fn take_in(flag: bool, map: &mut ExpiringMap, item: Item) -> Result<(), Memory>
    requires key { item.key ≢ [] }
    requires room { has_room_for_expiry flag item ≡ true }
    ensures ok { OnOk result (map.new ≡ with_item flag map.old item) }
    ensures err { OnErr result (map.new ≡ map.old) }
{
    if item.value.as_slice().is_empty() {
        map.take_out(item.key.as_slice());
        return Ok(());
    }
    let (value, expiry) = value_of(flag, item.value);
    map.put(Pair {
        key: item.key,
        value,
        expiry,
    })
}

// The value and the expiry that such bytes stand for.
fn value_of(flag: bool, bytes: Bytes) -> (Bytes, u32)
    requires some { 0 < length bytes }
    requires room { flag ≡ true → 4 < length bytes }
    ensures value { value_until result.0 result.1 ≡ unstored flag bytes }
    ensures some { result.0 ≢ [] }
{
    if !flag {
        return (bytes, 0);
    }
    let mut value = bytes.into_vec();
    let end = value.len() - 4;
    let expiry = [value[end], value[end + 1], value[end + 2], value[end + 3]];
    value.truncate(end);
    (Bytes::of_vec(value), u32::from_le_bytes(expiry))
}

/// Whether a payload has a map.
pub fn has_map(flag: bool, payload: &[u8]) -> bool
    ensures { result ≡ is_some (map_in flag payload.now) }
{
    match read_length(payload) {
        Ok((_, size)) => units_fit(flag, &payload[size..]),
        Err(_) => payload.is_empty(),
    }
}

// Whether some bytes are units to their end, each with room for its expiry.
fn units_fit(flag: bool, bytes: &[u8]) -> bool
    ensures { result ≡ units_fit flag bytes.now }
{
    let mut rest = bytes;
    while let Some((entry, behind)) = read_unit(rest) {
        if let Some(entry) = entry {
            if !has_room(flag, entry.value) {
                return false;
            }
        }
        rest = behind;
    }
    rest.is_empty()
}

#[cfg(test)]
mod tests {
    use super::*;
    use crate::decode::decode_all;
    use std::test::Fail;

    // Items a, b, a again, and b removed.
    const TWICE: [u8; 16] = [
        0x07, 0x01, 0x61, 0x01, 0x05, 0x01, 0x62, 0x01, 0x08, 0x01, 0x61, 0x01, 0x06, 0x01, 0x62,
        0x00,
    ];

    // With the flag: a with 09 until second 110, b removed, and c with no room for its expiry.
    const EXPIRING: [u8; 17] = [
        0x07, 0x01, 0x61, 0x05, 0x09, 0x6e, 0x00, 0x00, 0x00, 0x01, 0x62, 0x00, 0x01, 0x63, 0x02,
        0x00, 0x00,
    ];

    #[test]
    fn the_last_item_of_a_key_counts(rt: HostRuntime) -> Result<(), Fail> {
        let map = map_of(rt.alloc(), false, decode_all(rt.alloc(), &TWICE)?)?;
        assert_eq!(rt; map.len(), 1);
        assert_eq!(rt; map.value_at(&[0x61], 1_000), Some([0x06].as_slice()));
        Ok(())
    }

    #[test]
    fn a_value_with_no_room_for_its_expiry_is_refused_or_passed_over(
        rt: HostRuntime,
    ) -> Result<(), Fail> {
        let stop = Some(MapStop::NoMap { item: 2 });
        let refused = map_of(rt.alloc(), true, decode_all(rt.alloc(), &EXPIRING)?);
        assert_eq!(rt; refused.err(), stop);
        let mut map = ExpiringMap::new(rt.alloc());
        let refused = extend(true, &mut map, decode_all(rt.alloc(), &EXPIRING)?);
        assert_eq!(rt; refused.err(), stop);
        let greedy = map_greedy(rt.alloc(), true, decode_all(rt.alloc(), &EXPIRING)?)?;
        for map in [&map, &greedy] {
            assert_eq!(rt; map.len(), 1);
            assert_eq!(rt; map.value_at(&[0x61], 109), Some([0x09].as_slice()));
            assert_eq!(rt; map.value_at(&[0x61], 110), None);
        }
        extend(false, &mut map, decode_all(rt.alloc(), &EXPIRING)?)?;
        assert_eq!(rt; map.len(), 2);
        Ok(())
    }

    #[test]
    fn a_payload_is_tested_for_a_map(rt: HostRuntime) {
        let rows: [(bool, &[u8], bool); 7] = [
            (false, &TWICE, true),
            (true, &TWICE, false),
            (false, &EXPIRING, true),
            (true, &EXPIRING, false),
            (true, &EXPIRING[..12], true),
            (false, &TWICE[..15], false),
            (true, &[], true),
        ];
        for (flag, payload, want) in rows.iter() {
            assert_eq!(rt; has_map(*flag, payload), *want);
        }
    }
}
