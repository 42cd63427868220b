// The start of an append.
ghost use Rattle.std.specs.Prelude.{◌≡◌, ◌+◌, ◌%◌, ◌<◌, ◌≤◌, ◌^◌, ◌++◌, length, take, drop, IfOk};
ghost use Rattle.region_words.specs.Standings.{tail_bytes};
ghost use Rattle.region_words.specs.Rows.{item_of, IsAppendable};
ghost use Rattle.region_words.specs.Making.{appended_standing};
ghost use Rattle.appender.specs.Appends.{CanAppend, appending, ending};

use crate::item::push_item;
use change_log::Change;
use crc_words::crc32_from;
use expiring_map::Memory;
use meta_record::{WORD_CHECKSUM, WORD_SIZE};
use region_words::{ListedEvents, Mark, PayloadWords, RowMaker, Side, Standing, What, tail_word};
use std::alloc::Global;

/// The stores that put the item of a put or remove at the end of the payload: the words that hold it, the header, the
/// checksum with the change, and the record's size. None is made yet. `Memory` comes here or not at all.
pub fn start_append(alloc: Global, standing: &Standing, change: Change) -> Result<RowMaker, Memory>
    requires { CanAppend standing.now change }
    ensures { IfOk result (λ row. row ≡ appending standing.now change) }
{
    let bytes = last_bytes(alloc, standing, &change)?;
    let after = appended(standing, &bytes);
    let ending = ending_of(alloc, &after, change)?;
    Ok(RowMaker::new(
        ListedEvents::new(Vec::new(alloc)),
        PayloadWords::new(1 + standing.size / 4, bytes),
        ListedEvents::new(ending),
        0,
        after,
    ))
}

// The bytes that the payload's last word holds, and those of the item.
fn last_bytes(alloc: Global, standing: &Standing, change: &Change) -> Result<Vec<u8>, Memory>
    requires { IsAppendable standing.now.flag change.now.act }
    ensures { IfOk result (λ bytes. bytes.items ≡ tail_bytes standing.now ++ item_of standing.now.flag change.now.act) }
{
    let shared = (standing.size % 4) as usize;
    let mut bytes = Vec::with_capacity(alloc, 64)?;
    bytes.extend_from_slice(&standing.tail.to_le_bytes()[..shared])?;
    push_item(standing.flag, &change.act, &mut bytes)?;
    Ok(bytes)
}

// What is known of the image that ends with these bytes, of which the first stood in its last word.
fn appended(standing: &Standing, bytes: &[u8]) -> Standing
    requires front { take (standing.now.size % 4) bytes.now ≡ tail_bytes standing.now }
    requires within { standing.now.size % 4 ≤ length bytes.now }
    requires fits { standing.now.size + length bytes.now < 2 ^ 32 }
    ensures { result ≡ appended_standing standing.now (drop (standing.now.size % 4) bytes.now) }
{
    let item = &bytes[(standing.size % 4) as usize..];
    Standing {
        size: standing.size + item.len() as u32,
        checksum: crc32_from(standing.checksum, item),
        tail: tail_word(bytes),
        ..*standing
    }
}

// The stores behind the payload, with the change on the checksum.
fn ending_of(alloc: Global, after: &Standing, change: Change) -> Result<Vec<What>, Memory>
    ensures { IfOk result (λ events. events.items ≡ ending after.now change) }
{
    Ok(vec![in alloc;
        What::data(0, after.size),
        What::Store {
            side: Side::Meta,
            word: WORD_CHECKSUM as u32,
            value: after.checksum,
            mark: Mark::Commit(change),
        },
        What::meta(WORD_SIZE as u32, after.size),
    ]?)
}
