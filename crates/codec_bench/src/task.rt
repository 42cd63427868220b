// What the words of the command line ask for.
ghost use Rattle.std.specs.Prelude.{◌<◌, ◌≤◌, ◌^◌, IfOk, length};

use crate::payload::payload_of;
use crate::work::{checksum_of, count_items, pack_again, pattern};
use crc_words::crc32;
use std::alloc::Global;

const MOST_PAIRS: u32 = 1_000_000;

const MOST_BYTES: u32 = 1 << 26;

/// Data of a size to work on so many times.
#[derive(Clone, Copy)]
pub enum Task {
    Pack { pairs: u32, times: u32 },
    Decode { pairs: u32, times: u32 },
    Crc { bytes: u32, times: u32 },
}

pub fn task_of(words: &[String]) -> Option<Task> {
    let [deed, size, times] = words else {
        return None;
    };
    let size = size.parse::<u32>().ok()?;
    let times = times.parse::<u32>().ok()?;
    let has_pairs = 0 < size && size <= MOST_PAIRS;
    match deed.as_str() {
        "pack" if has_pairs => Some(Task::Pack { pairs: size, times }),
        "decode" if has_pairs => Some(Task::Decode { pairs: size, times }),
        "crc" if size <= MOST_BYTES => Some(Task::Crc { bytes: size, times }),
        _ => None,
    }
}

impl Task {
    /// Does the work, and says what came of it.
    pub fn line(self, alloc: Global) -> anyhow::Result<String> {
        match self {
            Task::Pack { pairs, times } => pack_line(alloc, pairs, times),
            Task::Decode { pairs, times } => decode_line(alloc, pairs, times),
            Task::Crc { bytes, times } => crc_line(alloc, bytes, times),
        }
    }
}

fn pack_line(alloc: Global, pairs: u32, times: u32) -> anyhow::Result<String> {
    let packed = pack_again(alloc, &payload_of(alloc, pairs)?, times)?;
    let (size, checksum) = (packed.len(), crc32(&packed));
    Ok(format!(in alloc; "pack {pairs} bytes {size} checksum {checksum:08x}")?)
}

fn decode_line(alloc: Global, pairs: u32, times: u32) -> anyhow::Result<String> {
    let count = count_items(alloc, &payload_of(alloc, pairs)?, times)?;
    Ok(format!(in alloc; "decode {pairs} items {count}")?)
}

fn crc_line(alloc: Global, bytes: u32, times: u32) -> anyhow::Result<String> {
    let checksum = checksum_of(&pattern(alloc, bytes)?, times);
    Ok(format!(in alloc; "crc {bytes} checksum {checksum:08x}")?)
}
