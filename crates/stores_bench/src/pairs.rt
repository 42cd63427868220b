// What is stored: bytes of a pattern, and a map of small pairs.
ghost use Rattle.std.specs.Prelude.{◌≡◌, ◌≤◌, IfOk, length};
ghost use Rattle.kv_pairs.specs.declared.growth.TheConstants.{LARGEST_FILE};
ghost use Rattle.stores_bench.specs.Pairs.{CanBeWritten, IsRead};

use anyhow::bail;
use expiring_map::{ExpiringMap, Memory};
use kv_pairs::{LARGEST_FILE, append_item, decode_all, map_of, packed_size};
use std::alloc::Global;

// Where a payload begins.
const HEADING: [u8; 4] = [0xff, 0xff, 0xff, 0x07];

// The bytes of an item, its two lengths among them.
const ITEM: u32 = 100;

/// Bytes of a pattern.
pub fn pattern(alloc: Global, size: u32) -> Result<Vec<u8>, Memory>
    ensures { IfOk result (λ bytes. length bytes.items ≡ size) }
{
    let mut bytes = Vec::with_capacity(alloc, size as usize)?;
    for place in 0..size {
        bytes.push((place % 251) as u8)?;
    }
    Ok(bytes)
}

/// A map whose items are packed to so many bytes, less than a hundred of them left out.
pub fn map_of_size(alloc: Global, size: u32) -> anyhow::Result<ExpiringMap>
    ensures { IfOk result CanBeWritten }
{
    let payload = payload_of(alloc, size / ITEM)?;
    if payload.len() as u64 > LARGEST_FILE {
        bail!("a payload that no file has");
    }
    let map = map_in(alloc, &payload)?;
    if packed_size(false, &map) > LARGEST_FILE || map.len() as u64 > LARGEST_FILE {
        bail!("a map that no file has");
    }
    Ok(map)
}

fn map_in(alloc: Global, payload: &[u8]) -> anyhow::Result<ExpiringMap>
    requires { length payload.now ≤ LARGEST_FILE }
    ensures { IfOk result IsRead }
{
    let items = decode_all(alloc, payload)?;
    Ok(map_of(alloc, false, items)?)
}

// The payload of so many pairs, in order.
fn payload_of(alloc: Global, count: u32) -> Result<Vec<u8>, Memory> {
    let mut payload = HEADING.to_vec(alloc)?;
    for number in 0..count {
        let value = [b'a' + (number % 26) as u8; 90];
        append_item(false, &key_of(number), &value, 0, &mut payload)?;
    }
    Ok(payload)
}

fn key_of(number: u32) -> [u8; 8] {
    let mut key = *b"key\0\0\0\0\0";
    key[4..].copy_from_slice(&number.to_be_bytes());
    key
}
