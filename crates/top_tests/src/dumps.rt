// Runs of the command `dump` over stores in memory.
use crate::runs::{dumped, ran_bare, shelf_with};
use expiring_map::Memory;
use meta_record::{
    WORD_CHECKSUM, WORD_FLAGS_LOW, WORD_LAST_CHECKSUM, WORD_LAST_SIZE, WORD_SEQUENCE, WORD_SIZE,
    WORD_VERSION, store_word,
};
use region_words::MemShelf;
use std::alloc::Global;
use std::test::Fail;

// Four bytes of a placeholder, and a pair. All checksums are those of zlib.
const PAYLOAD: &[u8] = b"\xff\xff\xff\x07\x01k\x04\x03abc";

const CRC: u32 = 0x3a65_95d3;

const CRC_OF_4: u32 = 0x4c99_85d1;

const WHOLE_TEXT: &[u8] =
    b"region data 4096 version 3 sequence 1 flags 0\nsizes header 11 record 11 last 4\nchecksums record 3a6595d3 last 4c9985d1\nshown whole 11\npairs 1\npair 6b 03616263 0\n";

const FRESH_TEXT: &[u8] =
    b"region data 4096 version 0 sequence 0 flags 0\nsizes header 0 record 0 last 0\nchecksums record 00000000 last 00000000\nshown whole 0\npairs 0\n";

const HEADER_TEXT: &[u8] =
    b"region data 4096 version 3 sequence 1 flags 0\nsizes header 11 record 5 last 4\nchecksums record 3a6595d3 last 4c9985d1\nshown header 11\npairs 1\npair 6b 03616263 0\n";

const LAST_TEXT: &[u8] =
    b"region data 4096 version 3 sequence 1 flags 0\nsizes header 11 record 11 last 4\nchecksums record 00000005 last 4c9985d1\nshown last 4\npairs 0\n";

const NOTHING_TEXT: &[u8] =
    b"region data 4096 version 3 sequence 1 flags 0\nsizes header 4294967295 record 4294967295 last 0\nchecksums record 00000005 last 00000000\nshown last 0\npairs 0\n";

// What stands in the two files beside the payload.
#[derive(Clone, Copy)]
struct Stored {
    version: u32,
    flags: u32,
    header: u32,
    size: u32,
    checksum: u32,
    last: [u32; 2],
}

fn stored_as(version: u32, flags: u32, size: u32, checksum: u32, last: [u32; 2]) -> Stored {
    Stored {
        version,
        flags,
        header: size,
        size,
        checksum,
        last,
    }
}

const WHOLE: Stored = Stored {
    version: 3,
    flags: 0,
    header: 11,
    size: 11,
    checksum: 0x3a65_95d3,
    last: [4, 0x4c99_85d1],
};

fn meta_of(row: Stored) -> [u8; 112] {
    let mut meta = [0u8; 112];
    store_word(&mut meta, WORD_CHECKSUM, row.checksum);
    store_word(&mut meta, WORD_VERSION, row.version);
    store_word(&mut meta, WORD_SEQUENCE, row.version.min(1));
    store_word(&mut meta, WORD_SIZE, row.size);
    store_word(&mut meta, WORD_LAST_SIZE, row.last[0]);
    store_word(&mut meta, WORD_LAST_CHECKSUM, row.last[1]);
    store_word(&mut meta, WORD_FLAGS_LOW, row.flags);
    meta
}

fn body_of(alloc: Global, header: u32, payload: &[u8]) -> Result<Vec<u8>, Memory> {
    let mut body = header.to_le_bytes().to_vec(alloc)?;
    body.extend_from_slice(payload)?;
    Ok(body)
}

// The shelf with the whole store alone.
fn whole_shelf(alloc: Global) -> Result<MemShelf, Memory> {
    shelf_with(alloc, body_of(alloc, 11, PAYLOAD)?, &meta_of(WHOLE))
}

#[test]
fn words_name_a_command_and_a_store(rt: HostRuntime) -> Result<(), Fail> {
    let alloc = rt.alloc();
    let rows: [(&[&[u8]], usize, u8, &[u8]); 8] = [
        (&[b"dir", b"dump", b"s"], 4096, 0, WHOLE_TEXT),
        (&[b"dir", b"dump", b"s"], 10, 4, b"region dat"),
        (&[b"dir", b"dump", b"t"], 4096, 13, b"no store\n"),
        (&[b"dir", b"dump"], 4096, 2, b"usage\n"),
        (&[], 4096, 2, b"usage\n"),
        (&[b"dir", b"dump", b"s.crc"], 4096, 2, b"usage\n"),
        (&[b"dir", b"dumps", b"s"], 4096, 2, b"usage\n"),
        (&[b"dir", b"dump", b"s", b"s"], 4096, 2, b"usage\n"),
    ];
    for (words, room, status, text) in rows {
        let (got, written) = ran_bare(alloc, words, &mut whole_shelf(alloc)?, room)?;
        assert_eq!(rt; got, status, "after {words:?}");
        assert_eq!(rt; written.as_slice(), text);
    }
    Ok(())
}

#[test]
fn a_shelf_that_fails_or_refuses_gives_no_region(rt: HostRuntime) -> Result<(), Fail> {
    let alloc = rt.alloc();
    let mut failing = whole_shelf(alloc)?;
    failing.fail_at([0u64].to_vec(alloc)?);
    let (status, text) = ran_bare(alloc, &[b"dir", b"dump", b"s"], &mut failing, 4096)?;
    assert_eq!(rt; status, 5);
    assert_eq!(rt; text.as_slice(), b"region fault\n".as_slice());
    let (status, text) = dumped(alloc, vec![in alloc; 0u8; 67_112_960]?, &meta_of(WHOLE))?;
    assert_eq!(rt; status, 14);
    assert_eq!(rt; text.as_slice(), b"size 67112960\n".as_slice());
    Ok(())
}

#[test]
fn a_region_is_dumped_or_named_damaged(rt: HostRuntime) -> Result<(), Fail> {
    let rows: [(Stored, &[u8], u8, &[u8]); 13] = [
        (WHOLE, PAYLOAD, 0, WHOLE_TEXT),
        (Stored { size: 5, ..WHOLE }, PAYLOAD, 0, HEADER_TEXT),
        (
            Stored {
                checksum: 5,
                ..WHOLE
            },
            PAYLOAD,
            0,
            LAST_TEXT,
        ),
        (stored_as(3, 0, u32::MAX, 5, [0, 0]), b"", 0, NOTHING_TEXT),
        (stored_as(0, 0, 0, 0, [0, 0]), b"", 0, FRESH_TEXT),
        (
            Stored {
                version: 9,
                ..WHOLE
            },
            PAYLOAD,
            10,
            b"version 9\n",
        ),
        (
            Stored {
                version: 4,
                flags: 2,
                ..WHOLE
            },
            PAYLOAD,
            10,
            b"flags 2\n",
        ),
        (
            stored_as(3, 0, u32::MAX, 5, [0, 1]),
            b"",
            6,
            b"damaged length\n",
        ),
        (
            stored_as(3, 0, 11, 5, [4, 5]),
            PAYLOAD,
            6,
            b"damaged checksum\n",
        ),
        (
            Stored {
                version: 4,
                flags: 1,
                ..WHOLE
            },
            PAYLOAD,
            6,
            b"damaged content\n",
        ),
        (
            stored_as(3, 0, 6, 0x1bdc_321b, [0, 0]),
            b"\xff\xff\xff\xff\xff\x01",
            6,
            b"damaged content\n",
        ),
        (
            stored_as(3, 0, 5, 0x53f0_60c5, [0, 0]),
            b"\xff\xff\xff\x07\x05",
            6,
            b"damaged content\n",
        ),
        (
            stored_as(3, 0, 9, 0xa187_f9ca, [0, 0]),
            b"\xff\xff\xff\x07\xff\xff\xff\xff\x07",
            6,
            b"damaged content\n",
        ),
    ];
    for (row, payload, status, text) in rows {
        let body = body_of(rt.alloc(), row.header, payload)?;
        let (got, written) = dumped(rt.alloc(), body, &meta_of(row))?;
        assert_eq!(rt; written.as_slice(), text);
        assert_eq!(rt; got, status, "for {text:?}");
    }
    Ok(())
}

#[test]
fn an_empty_meta_file_counts_as_a_page_of_zeros(rt: HostRuntime) -> Result<(), Fail> {
    let alloc = rt.alloc();
    let rows = [
        (body_of(alloc, 11, PAYLOAD)?, 10, b"version 0\n".as_slice()),
        (Vec::new(alloc), 0, FRESH_TEXT),
    ];
    for (body, status, text) in rows {
        let (got, written) = dumped(alloc, body, b"")?;
        assert_eq!(rt; got, status);
        assert_eq!(rt; written.as_slice(), text);
    }
    Ok(())
}
