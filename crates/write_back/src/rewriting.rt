// The start of a write-back.
ghost use Rattle.std.specs.Prelude.{◌≡◌, ◌^◌, ◌<◌, ◌≤◌, Some, IfErr, IfOk, OnOk};
ghost use Rattle.kv_pairs.specs.Mapped.{packed_size, IsSmall};
ghost use Rattle.write_back.specs.Rewrites.{CanWriteBack, CanBegin, IsRefused, rewriting, rewriting_to};

use crate::parts::{closing, opening, rewritten};
use change_log::Change;
use expiring_map::{ExpiringMap, Memory};
use kv_pairs::{grown_size, pack, packed_size};
use region_words::{ListedEvents, PayloadWords, RowMaker, Standing};
use std::alloc::Global;
use thiserror::Error;

/// Why the pairs are not written anew. Nothing was stored.
#[derive(Clone, Copy, Debug, PartialEq, Eq, Error)]
pub enum RewriteStop {
    /// The greatest data file, of 2^26 bytes, is smaller than what is needed, in bytes.
    #[error("the store is full: {need} bytes are needed")]
    Full { need: u64 },
    /// The sequence is 2^32 - 1 and can't be raised.
    #[error("the sequence is at its end")]
    SequenceEnd,
    #[error("out of memory")]
    Memory,
}

/// The stores that write the pairs of a map in the place of the old payload: the growth of the file where it is too small, the
/// sequence, the words of the payload, and the new sizes and checksums. None is made yet. The map is the one that the change
/// leaves, and `need` is the number of bytes that are appended next. The change is given up where this is refused. `Memory`
/// comes here or not at all.
pub fn start_rewrite(
    alloc: Global,
    standing: &Standing,
    map: &ExpiringMap,
    change: Change,
    need: u64,
) -> Result<RowMaker, RewriteStop>
    requires { CanWriteBack standing.now map.now change need }
    ensures ok { IfOk result (λ row. row ≡ rewriting standing.now map.now change need) }
    ensures begun { OnOk result (CanBegin standing.now map.now need) }
    ensures err { IfErr result (λ stop. IsRefused standing.now map.now need stop) }
{
    let packed = packed_size(standing.flag, map);
    let Some(size) = grown_size(packed, need, map.len() as u64, standing.file_size) else {
        return Err(RewriteStop::Full {
            need: 4 + packed + need,
        });
    };
    if standing.sequence == u32::MAX {
        return Err(RewriteStop::SequenceEnd);
    }
    match maker_of(alloc, standing, map, change, size) {
        Ok(row) => Ok(row),
        Err(Memory) => Err(RewriteStop::Memory),
    }
}

// The events of a write-back to a file of this size.
fn maker_of(
    alloc: Global,
    standing: &Standing,
    map: &ExpiringMap,
    change: Change,
    size: u32,
) -> Result<RowMaker, Memory>
    requires small { IsSmall map.now }
    requires fits { packed_size standing.now.flag map.now ≤ 2 ^ 30 }
    requires sequence { standing.now.sequence < 0xffffffff }
    ensures { IfOk result (λ m. m ≡ rewriting_to standing.now map.now change (Some size)) }
{
    let mut payload = Vec::new(alloc);
    pack(standing.flag, map, &mut payload)?;
    let after = rewritten(standing, &payload, size);
    let before = ListedEvents::new(opening(alloc, standing, size)?);
    let behind = ListedEvents::new(closing(alloc, &after, change)?);
    let room = if standing.file_size < size { size } else { 0 };
    Ok(RowMaker::new(before, PayloadWords::new(1, payload), behind, room, after))
}
