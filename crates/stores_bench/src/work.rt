// The measured work: a region, and in it the stores of one row.
ghost use Rattle.std.specs.Prelude.{◌≡◌, ◌≢◌, ◌^◌, ◌<◌, ◌≤◌, [], false, IfOk, OnOk, length};
ghost use Rattle.region_words.specs.Rows.{Row, IsAppendable};
ghost use Rattle.region_words.specs.Owing.{IsOwing};
ghost use Rattle.region_words.specs.Local.{seat_state};
ghost use Rattle.stores_bench.specs.Start.{put_by_one};
ghost use Rattle.stores_bench.specs.Pairs.{CanBeWritten};

use crate::start::{Ready, locked_region};
use appender::start_append;
use change_log::{Act, Change};
use expiring_map::{Bytes, ExpiringMap, Memory};
use kv_pairs::item_size;
use region_words::{LocalSeat, RowMaker, Share, ShareStop, Stored};
use std::alloc::Global;
use write_back::start_rewrite;

// The bytes of the header and of the payload to which an item is appended.
const BEFORE: u64 = 8;

/// A region of one page, which grows as the pairs of the map are written back.
pub fn write_back(alloc: Global, map: &ExpiringMap) -> anyhow::Result<LocalSeat>
    requires { CanBeWritten map.now }
{
    let Ready { mut seat, standing } = locked_region(alloc, 4096)?;
    let change = Change {
        maker: 1,
        act: Act::Pack { now: 0 },
    };
    let mut row = start_rewrite(alloc, &standing, map, change, 0)?;
    seat.reserve(row.events(), row.room())?;
    finish(&mut row, &mut seat)?;
    Ok(seat)
}

// Makes all the events of a row.
fn finish(row: &mut RowMaker, seat: &mut LocalSeat) -> Result<(), ShareStop>
    requires some { row.old.events ≢ [] }
    requires owing { (r : Row) × IsOwing r row.old.events (seat_state seat.old) }
    ensures made { OnOk result (row.new.events ≡ []) }
{
    while let Stored::More = row.step(seat)? {}
    Ok(())
}

/// A region with room for an item of this value, which is appended.
pub fn append(alloc: Global, value: &[u8]) -> anyhow::Result<LocalSeat>
    requires some { 0 < length value.now }
    requires most { length value.now ≤ 2 ^ 25 }
{
    let need = BEFORE + item_size(false, 1, value.len() as u32);
    let Ready { mut seat, standing } = locked_region(alloc, need as usize)?;
    let change = put_of(alloc, value)?;
    let mut row = start_append(alloc, &standing, change)?;
    seat.reserve(row.events(), row.room())?;
    finish(&mut row, &mut seat)?;
    Ok(seat)
}

fn put_of(alloc: Global, value: &[u8]) -> Result<Change, Memory>
    requires some { 0 < length value.now }
    requires most { length value.now ≤ 2 ^ 27 }
    ensures value { IfOk result (λ change. change ≡ put_by_one value.now) }
    ensures may { IfOk result (λ change. IsAppendable false change.act) }
{
    Ok(Change {
        maker: 1,
        act: Act::Put {
            key: Bytes::copy_of(alloc, b"k")?,
            value: Bytes::copy_of(alloc, value)?,
            expiry: 0,
        },
    })
}
