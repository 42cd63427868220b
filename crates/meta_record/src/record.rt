// The words of the meta file that are read, and which of them are accepted.
ghost use Rattle.std.specs.Prelude.{◌≡◌, ◌≤◌, length};
ghost use Rattle.meta_record.specs.Records.{record_at, flags_at, is_fresh, checked};

use crate::words::load_word;
use thiserror::Error;

/// The place of the checksum of the payload of the record's size. All places are counted in words.
pub const WORD_CHECKSUM: usize = 0;
/// The place of the version of the format.
pub const WORD_VERSION: usize = 1;
/// The place of the number that each rewrite of the data raises.
pub const WORD_SEQUENCE: usize = 2;
/// The place of the payload's size in bytes.
pub const WORD_SIZE: usize = 7;
/// The place of the last confirmed size.
pub const WORD_LAST_SIZE: usize = 8;
/// The place of the last confirmed checksum.
pub const WORD_LAST_CHECKSUM: usize = 9;
/// The place of the low half of the flags.
pub const WORD_FLAGS_LOW: usize = 26;
/// The place of the high half of the flags.
pub const WORD_FLAGS_HIGH: usize = 27;

/// The words of the meta file that are read.
#[derive(Clone, Copy, Debug, PartialEq, Eq)]
pub struct Record {
    pub checksum: u32,
    pub version: u32,
    pub sequence: u32,
    pub size: u32,
    pub last_size: u32,
    pub last_checksum: u32,
    pub flags: u64,
}

/// Why a record is refused.
#[derive(Clone, Copy, Debug, PartialEq, Eq, Error)]
pub enum RecordFault {
    #[error("version {0} of the record is not known")]
    Version(u32),
    #[error("the record has unknown flags: {0}")]
    Flags(u64),
}

/// The record that stands in the meta file.
pub fn record_of(meta: &[u8]) -> Record
    requires { 112 ≤ length meta.now }
    ensures { result ≡ record_at meta.now }
{
    Record {
        checksum: load_word(meta, WORD_CHECKSUM),
        version: load_word(meta, WORD_VERSION),
        sequence: load_word(meta, WORD_SEQUENCE),
        size: load_word(meta, WORD_SIZE),
        last_size: load_word(meta, WORD_LAST_SIZE),
        last_checksum: load_word(meta, WORD_LAST_CHECKSUM),
        flags: flags_of(meta),
    }
}

fn flags_of(meta: &[u8]) -> u64
    requires { 112 ≤ length meta.now }
    ensures { result ≡ flags_at meta.now }
{
    let low = load_word(meta, WORD_FLAGS_LOW) as u64;
    let high = load_word(meta, WORD_FLAGS_HIGH) as u64;
    low + (high << 32)
}

/// Whether the record is accepted beside this header, and why not. The version is looked at first.
pub fn check_record(rec: &Record, header: u32) -> Result<(), RecordFault>
    ensures { result ≡ checked rec.now header }
{
    if !is_fresh(rec, header) && rec.version != 3 && rec.version != 4 {
        return Err(RecordFault::Version(rec.version));
    }
    if rec.flags > 1 {
        return Err(RecordFault::Flags(rec.flags));
    }
    Ok(())
}

fn is_fresh(rec: &Record, header: u32) -> bool
    ensures { result ≡ is_fresh rec.now header }
{
    rec.version == 0 && header == 0 && rec.checksum == 0 && rec.size == 0 && rec.flags == 0
}

#[cfg(test)]
mod tests {
    use super::*;
    use crate::words::store_word;

    #[test]
    fn each_word_is_read_from_its_place(rt: HostRuntime) {
        let mut meta = [0u8; 112];
        for word in 0..28usize {
            store_word(&mut meta, word, 1000 + word as u32);
        }
        let want = Record {
            checksum: 1000,
            version: 1001,
            sequence: 1002,
            size: 1007,
            last_size: 1008,
            last_checksum: 1009,
            flags: 0x0000_0403_0000_0402,
        };
        assert_eq!(rt; record_of(&meta), want);
    }

    fn checked(version: u32, flags: u64, size: u32, header: u32) -> Result<(), RecordFault> {
        let rec = Record {
            checksum: 0,
            version,
            sequence: 5,
            size,
            last_size: 6,
            last_checksum: 7,
            flags,
        };
        check_record(&rec, header)
    }

    #[test]
    fn version_0_is_accepted_in_fresh_stores_alone(rt: HostRuntime) {
        assert_eq!(rt; checked(0, 0, 0, 0), Ok(()));
        for (flags, size, header) in [(1, 0, 0), (0, 4, 0), (0, 0, 4)] {
            assert_eq!(rt;
                checked(0, flags, size, header),
                Err(RecordFault::Version(0))
            );
        }
    }

    #[test]
    fn the_version_is_looked_at_before_the_flags(rt: HostRuntime) {
        let rows = [
            (2, 0, Err(RecordFault::Version(2))),
            (3, 0, Ok(())),
            (3, 1, Ok(())),
            (3, 2, Err(RecordFault::Flags(2))),
            (4, 1, Ok(())),
            (4, 0x1_0000_0000, Err(RecordFault::Flags(0x1_0000_0000))),
            (5, 2, Err(RecordFault::Version(5))),
        ];
        for (version, flags, want) in rows {
            assert_eq!(rt; checked(version, flags, 8, 8), want);
        }
    }
}
