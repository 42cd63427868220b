// The measured work, each so many times over.
ghost use Rattle.std.specs.Prelude.{◌≤◌, length, IfOk};
ghost use Rattle.kv_pairs.specs.declared.growth.TheConstants.{LARGEST_FILE};
ghost use Rattle.kv_pairs.specs.Mapped.{IsSmall};

use anyhow::bail;
use crc_words::crc32_from;
use expiring_map::{ExpiringMap, Memory};
use kv_pairs::{LARGEST_FILE, decode_all, map_of, pack};
use std::alloc::Global;

/// The number of items that a payload has.
pub fn count_items(alloc: Global, payload: &[u8], times: u32) -> anyhow::Result<usize> {
    let mut count = 0;
    for _ in 0..times {
        count = decode_all(alloc, payload)?.as_slice().len();
    }
    Ok(count)
}

/// The map of a payload, packed again.
pub fn pack_again(alloc: Global, payload: &[u8], times: u32) -> anyhow::Result<Vec<u8>> {
    if payload.len() as u64 > LARGEST_FILE {
        bail!("a payload that no file has");
    }
    let map = map_in(alloc, payload)?;
    let mut out = Vec::new(alloc);
    for _ in 0..times {
        out.clear();
        pack(false, &map, &mut out)?;
    }
    Ok(out)
}

fn map_in(alloc: Global, payload: &[u8]) -> anyhow::Result<ExpiringMap>
    requires { length payload.now ≤ LARGEST_FILE }
    ensures { IfOk result IsSmall }
{
    let items = decode_all(alloc, payload)?;
    Ok(map_of(alloc, false, items)?)
}

/// Bytes of a pattern.
pub fn pattern(alloc: Global, size: u32) -> Result<Vec<u8>, Memory> {
    let mut bytes = Vec::with_capacity(alloc, size as usize)?;
    for place in 0..size {
        bytes.push((place % 251) as u8)?;
    }
    Ok(bytes)
}

/// The checksum of the bytes so many times over.
pub fn checksum_of(bytes: &[u8], times: u32) -> u32 {
    let mut checksum = 0;
    for _ in 0..times {
        checksum = crc32_from(checksum, bytes);
    }
    checksum
}
