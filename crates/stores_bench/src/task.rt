// What the words of the command line ask for.
ghost use Rattle.std.specs.Prelude.{◌<◌, ◌≤◌};

use crate::pairs::{map_of_size, pattern};
use crate::work::{append, write_back};
use anyhow::bail;
use crc_words::crc32;
use region_words::LocalSeat;
use std::alloc::Global;

// The words of a row of so many bytes have places in a journal.
const MOST_BYTES: u32 = 1 << 23;

/// Which row of stores is made.
#[derive(Clone, Copy)]
enum Deed {
    Append,
    WriteBack,
}

/// A row of stores for so many bytes, made so many times, each in a region of its own, and once at least.
#[derive(Clone, Copy)]
pub struct Task {
    deed: Deed,
    bytes: u32,
    times: u32,
}

pub fn task_of(words: &[String]) -> Option<Task> {
    let [deed, bytes, times] = words else {
        return None;
    };
    let deed = match deed.as_str() {
        "append" => Deed::Append,
        "write_back" => Deed::WriteBack,
        _ => return None,
    };
    Some(Task {
        deed,
        bytes: bytes.parse::<u32>().ok()?,
        times: times.parse::<u32>().ok()?,
    })
}

impl Task {
    /// Does the work, and says what came of the last time.
    pub fn line(self, alloc: Global) -> anyhow::Result<String> {
        if self.bytes == 0 || self.bytes > MOST_BYTES {
            bail!("no bytes, or too many");
        }
        match self.deed {
            Deed::Append => append_line(alloc, self.bytes, self.times),
            Deed::WriteBack => write_back_line(alloc, self.bytes, self.times),
        }
    }
}

fn append_line(alloc: Global, bytes: u32, times: u32) -> anyhow::Result<String>
    requires some { 0 < bytes }
    requires most { bytes ≤ MOST_BYTES }
{
    let value = pattern(alloc, bytes)?;
    for _ in 1..times {
        append(alloc, &value)?;
    }
    line_of(alloc, "append", bytes, &append(alloc, &value)?)
}

fn write_back_line(alloc: Global, bytes: u32, times: u32) -> anyhow::Result<String> {
    let map = map_of_size(alloc, bytes)?;
    for _ in 1..times {
        write_back(alloc, &map)?;
    }
    line_of(alloc, "write_back", bytes, &write_back(alloc, &map)?)
}

// How many events the journal has, and the checksums of the two files.
fn line_of(alloc: Global, deed: &str, bytes: u32, seat: &LocalSeat) -> anyhow::Result<String> {
    let region = seat.region();
    let events = region.journal().len();
    let (body, meta) = (crc32(region.data_bytes()), crc32(region.meta_bytes()));
    Ok(format!(in alloc; "{deed} {bytes} events {events} files {body:08x} {meta:08x}")?)
}
