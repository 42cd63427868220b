// What a switch stores before and behind its payload, and what is known of the image then.
ghost use Rattle.std.specs.Prelude.{◌≡◌, ◌<◌, ◌^◌, Some, IfOk, length, not};
ghost use Rattle.region_words.specs.Making.{rewritten_standing};
ghost use Rattle.expiry_switch.specs.PartsInside.{closing, opening};

use change_log::Change;
use crc_words::crc32;
use expiring_map::Memory;
use meta_record::{
    WORD_CHECKSUM, WORD_FLAGS_LOW, WORD_LAST_CHECKSUM, WORD_LAST_SIZE, WORD_SEQUENCE, WORD_SIZE,
    WORD_VERSION,
};
use region_words::{Mark, Side, Standing, What, tail_word};
use std::alloc::Global;

/// The version of a store whose expiry was switched.
const SWITCHED_VERSION: u32 = 4;

/// A size that fits no file.
const CLOSED_SIZE: u32 = 0xffff_ffff;

/// The growth to this size, where the file is smaller, the next sequence, the version, and the three sizes, closed.
pub fn opening(alloc: Global, standing: &Standing, size: u32) -> Result<Vec<What>, Memory>
    requires { standing.now.sequence < 0xffffffff }
    ensures { IfOk result (λ events. events.items ≡ opening standing.now size) }
{
    let mut events = Vec::with_capacity(alloc, 6)?;
    if standing.file_size < size {
        events.push(What::Grow { size })?;
    }
    events.push(What::meta(WORD_SEQUENCE as u32, standing.sequence + 1))?;
    events.push(What::meta(WORD_VERSION as u32, SWITCHED_VERSION))?;
    events.push(What::meta(WORD_SIZE as u32, CLOSED_SIZE))?;
    events.push(What::data(0, CLOSED_SIZE))?;
    events.push(What::meta(WORD_LAST_SIZE as u32, CLOSED_SIZE))?;
    Ok(events)
}

/// The flags, the checksums and the sizes of the new image, with the change on the header.
pub fn closing(alloc: Global, after: &Standing, change: Change) -> Result<Vec<What>, Memory>
    ensures { IfOk result (λ events. events.items ≡ closing after.now change) }
{
    Ok(vec![in alloc;
        What::meta(WORD_FLAGS_LOW as u32, u32::from(after.flag)),
        What::meta(WORD_CHECKSUM as u32, after.checksum),
        What::meta(WORD_LAST_CHECKSUM as u32, after.checksum),
        What::Store {
            side: Side::Data,
            word: 0,
            value: after.size,
            mark: Mark::Commit(change),
        },
        What::meta(WORD_SIZE as u32, after.size),
        What::meta(WORD_LAST_SIZE as u32, after.size),
    ]?)
}

/// What is known of the image of this payload once it is written under the other flag, in a file of this size or more.
pub fn switched(standing: &Standing, payload: &[u8], size: u32) -> Standing
    requires sequence { standing.now.sequence < 0xffffffff }
    requires fits { length payload.now < 2 ^ 32 }
    ensures { result ≡ rewritten_standing standing.now 4 (not standing.now.flag) (Some size) payload.now }
{
    Standing {
        sequence: standing.sequence + 1,
        version: SWITCHED_VERSION,
        flag: !standing.flag,
        size: payload.len() as u32,
        checksum: crc32(payload),
        tail: tail_word(payload),
        file_size: standing.file_size.max(size),
    }
}
