// Which image of a region stands.
ghost use Rattle.std.specs.Prelude.{◌≡◌, ◌≤◌, length};
ghost use Rattle.meta_record.specs.Words.{fits};
ghost use Rattle.meta_record.specs.Records.{checked, agrees, shown_size};

use crate::record::Record;
use crc_words::crc32;

/// How a region is damaged.
#[derive(Clone, Copy, Debug, PartialEq, Eq)]
pub enum Damage {
    Length,
    Checksum,
    Content,
}

/// What a region shows: an image of some size, or damage.
#[derive(Clone, Copy, Debug, PartialEq, Eq)]
pub enum Shown {
    Whole(u32),
    Header(u32),
    Last(u32),
    Damaged(Damage),
}

/// Which image stands in the data, by checksums alone: whether it has a map isn't asked here.
pub fn shown_size(rec: &Record, header: u32, body: &[u8]) -> Shown
    requires accepted { checked rec.now header ≡ Ok tt }
    requires long { 4 ≤ length body.now }
    ensures { result ≡ shown_size rec.now header body.now }
{
    if agrees(body, rec.size, rec.checksum) {
        Shown::Whole(rec.size)
    } else if header != rec.size && agrees(body, header, rec.checksum) {
        Shown::Header(header)
    } else if agrees(body, rec.last_size, rec.last_checksum) {
        Shown::Last(rec.last_size)
    } else if fits(body, rec.size) {
        Shown::Damaged(Damage::Checksum)
    } else {
        Shown::Damaged(Damage::Length)
    }
}

// A payload of this size stands there and has this checksum.
fn agrees(body: &[u8], size: u32, checksum: u32) -> bool
    ensures { result ≡ agrees body.now size checksum }
{
    fits(body, size) && crc32(&body[4..4 + size as usize]) == checksum
}

fn fits(body: &[u8], size: u32) -> bool
    ensures { result ≡ fits body.now size }
{
    4 + size as usize <= body.len()
}

#[cfg(test)]
mod tests {
    use super::*;

    // a header and six bytes of payload
    const BODY: [u8; 10] = *b"\x04\0\0\0abcdef";

    // their checksums, as zlib has them
    const AB: u32 = 0x9e83_486d;

    const ABC: u32 = 0x3524_41c2;

    const ABCD: u32 = 0xed82_cd11;

    // what is shown where the last confirmed image is `ab`
    fn shown(size: u32, checksum: u32, header: u32) -> Shown {
        let rec = Record {
            checksum,
            version: 3,
            sequence: 1,
            size,
            last_size: 2,
            last_checksum: AB,
            flags: 0,
        };
        shown_size(&rec, header, &BODY)
    }

    #[test]
    fn the_first_image_that_agrees_is_shown(rt: HostRuntime) {
        let rows = [
            (3, ABC, 4, Shown::Whole(3)),
            (3, ABCD, 4, Shown::Header(4)),
            (7, ABCD, 4, Shown::Header(4)),
            (3, ABCD, 3, Shown::Last(2)),
            (3, 0, 4, Shown::Last(2)),
            (0, 0, 4, Shown::Whole(0)),
        ];
        for (size, checksum, header, want) in rows {
            assert_eq!(rt; shown(size, checksum, header), want);
        }
    }

    #[test]
    fn damage_is_of_the_length_where_the_size_does_not_fit(rt: HostRuntime) {
        for (size, want) in [(6, Damage::Checksum), (7, Damage::Length)] {
            let rec = Record {
                checksum: 1,
                version: 4,
                sequence: 1,
                size,
                last_size: 9,
                last_checksum: 1,
                flags: 1,
            };
            assert_eq!(rt; shown_size(&rec, 5, &BODY), Shown::Damaged(want));
        }
    }
}
