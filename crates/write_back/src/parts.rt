// What a write-back stores before and behind its payload, and what is known of the image then.
ghost use Rattle.std.specs.Prelude.{◌≡◌, ◌<◌, ◌^◌, Some, IfOk, length};
ghost use Rattle.region_words.specs.Making.{rewritten_standing};
ghost use Rattle.write_back.specs.Rewrites.{closing, opening, version_after};

use change_log::Change;
use crc_words::crc32;
use expiring_map::Memory;
use meta_record::{
    WORD_CHECKSUM, WORD_LAST_CHECKSUM, WORD_LAST_SIZE, WORD_SEQUENCE, WORD_SIZE, WORD_VERSION,
};
use region_words::{Mark, Side, Standing, What, tail_word};
use std::alloc::Global;

/// The version that a fresh store gets.
const FIRST_VERSION: u32 = 3;

/// The growth to this size, where the file is smaller, the next sequence, and the version of a store that has none.
pub fn opening(alloc: Global, standing: &Standing, size: u32) -> Result<Vec<What>, Memory>
    requires { standing.now.sequence < 0xffffffff }
    ensures { IfOk result (λ events. events.items ≡ opening standing.now size) }
{
    let mut events = Vec::with_capacity(alloc, 3)?;
    if standing.file_size < size {
        events.push(What::Grow { size })?;
    }
    events.push(What::meta(WORD_SEQUENCE as u32, standing.sequence + 1))?;
    if standing.version == 0 {
        events.push(What::meta(WORD_VERSION as u32, FIRST_VERSION))?;
    }
    Ok(events)
}

/// The sizes and checksums of the new image, with the change on the checksum.
pub fn closing(alloc: Global, after: &Standing, change: Change) -> Result<Vec<What>, Memory>
    ensures { IfOk result (λ events. events.items ≡ closing after.now change) }
{
    Ok(vec![in alloc;
        What::data(0, after.size),
        What::Store {
            side: Side::Meta,
            word: WORD_CHECKSUM as u32,
            value: after.checksum,
            mark: Mark::Commit(change),
        },
        What::meta(WORD_SIZE as u32, after.size),
        What::meta(WORD_LAST_SIZE as u32, after.size),
        What::meta(WORD_LAST_CHECKSUM as u32, after.checksum),
    ]?)
}

/// What is known of the image of this payload once it is written, in a file of this size or more.
pub fn rewritten(standing: &Standing, payload: &[u8], size: u32) -> Standing
    requires sequence { standing.now.sequence < 0xffffffff }
    requires fits { length payload.now < 2 ^ 32 }
    ensures { result ≡ rewritten_standing standing.now (version_after standing.now) standing.now.flag (Some size) payload.now }
{
    Standing {
        sequence: standing.sequence + 1,
        version: if standing.version == 0 {
            FIRST_VERSION
        } else {
            standing.version
        },
        flag: standing.flag,
        size: payload.len() as u32,
        checksum: crc32(payload),
        tail: tail_word(payload),
        file_size: standing.file_size.max(size),
    }
}
