// The outside in memory, and what a few regions show.
use expiring_map::{Bytes, Memory};
use meta_record::{
    Damage, RecordFault, Shown, WORD_CHECKSUM, WORD_FLAGS_LOW, WORD_LAST_CHECKSUM, WORD_LAST_SIZE,
    WORD_SEQUENCE, WORD_SIZE, WORD_VERSION, store_word,
};
use region_words::{
    Brought, Clock, Failed, MemShelf, MemSink, MemSource, SetClock, Shelf, ShelfStop, Sink, Source,
    base_map, fill_up, is_id, shown,
};
use std::alloc::{AllocError, Global};
use std::test::Fail;

// Four bytes of a placeholder, and a pair. The checksums are those of zlib.
const PAYLOAD: [u8; 11] = *b"\xff\xff\xff\x07\x01k\x04\x03abc";

const CRC: u32 = 0x3a65_95d3;

const CRC_OF_4: u32 = 0x4c99_85d1;

fn front_of<S: Source>(source: &mut S, most: usize) -> Result<u64, Failed> {
    let mut buffer = [0u8; 8];
    let n = source.read(&mut buffer[..most.min(8)])?;
    let mut number = 0u64;
    for byte in &buffer[..n] {
        number = number.wrapping_mul(256).wrapping_add(*byte as u64);
    }
    Ok(number)
}

fn taken<K: Sink>(sink: &mut K, piece: &[u8]) -> Result<usize, Failed> {
    sink.write(piece)
}

fn moment_of<C: Clock>(clock: &mut C) -> u32 {
    clock.now()
}

// The lengths of both files.
fn sizes<D: Shelf>(shelf: &mut D, id: &[u8]) -> Result<(usize, usize), ShelfStop> {
    if !is_id(id) {
        return Err(ShelfStop::Failed);
    }
    let Brought { body, meta } = shelf.bring(id)?;
    Ok((body.as_slice().len(), meta.as_slice().len()))
}

fn zeros(alloc: Global, len: usize) -> Result<Vec<u8>, AllocError> {
    let mut bytes = Vec::new(alloc);
    bytes.resize(len, 0)?;
    Ok(bytes)
}

fn add(
    alloc: Global,
    shelf: &mut MemShelf,
    id: &[u8],
    body: usize,
    meta: usize,
) -> Result<(), Memory> {
    let id = Bytes::copy_of(alloc, id)?;
    shelf.add(id, zeros(alloc, body)?, zeros(alloc, meta)?)
}

#[test]
fn a_source_fails_at_its_call_alone(rt: HostRuntime) -> Result<(), Fail> {
    let alloc = rt.alloc();
    let fails = [1u64].to_vec(alloc)?;
    let mut source = MemSource::new([1u8, 2, 3].to_vec(alloc)?, fails);
    for want in [Ok(0x0102), Err(Failed), Ok(0x03), Ok(0)] {
        assert_eq!(rt; front_of(&mut source, 2), want);
    }
    assert_eq!(rt; moment_of(&mut SetClock::new(100)), 100);
    Ok(())
}

#[test]
fn a_sink_takes_no_byte_beyond_its_room(rt: HostRuntime) -> Result<(), Fail> {
    let alloc = rt.alloc();
    let mut sink = MemSink::new(alloc, 10, Vec::new(alloc))?;
    for (piece, want) in [
        (&b"region data"[..], Ok(10)),
        (b"a", Err(Failed)),
        (b"", Ok(0)),
    ] {
        assert_eq!(rt; taken(&mut sink, piece), want);
        assert_eq!(rt; sink.written(), b"region dat".as_slice());
    }
    Ok(())
}

#[test]
fn a_shelf_brings_the_store_that_was_added_last(rt: HostRuntime) -> Result<(), Fail> {
    let alloc = rt.alloc();
    let mut shelf = MemShelf::new(alloc);
    shelf.fail_at([0u64].to_vec(alloc)?);
    add(alloc, &mut shelf, b"a", 3, 4)?;
    add(alloc, &mut shelf, b"a", 5, 0)?;
    add(alloc, &mut shelf, b"data", 67_108_865, 65_537)?;
    add(alloc, &mut shelf, b"meta", 0, 65_537)?;
    add(alloc, &mut shelf, b"most", 0, 65_536)?;
    let rows: [(&[u8], _); 6] = [
        (b"a", Err(ShelfStop::Failed)),
        (b"a", Ok((5, 0))),
        (b"b", Err(ShelfStop::Absent)),
        (b"data", Err(ShelfStop::SizeRefused(67_108_865))),
        (b"meta", Err(ShelfStop::SizeRefused(65_537))),
        (b"most", Ok((0, 65_536))),
    ];
    for (id, want) in rows {
        assert_eq!(rt; sizes(&mut shelf, id), want);
    }
    Ok(())
}

#[test]
fn an_id_is_1_to_200_bytes_without_path_marks(rt: HostRuntime) {
    let long = [b's'; 201];
    let good: [&[u8]; 5] = [b"s", &long[..200], b".crca", b"a.CRC", b"\xc3\xa9 ."];
    for id in good {
        assert!(rt; is_id(id), "{id:?}");
    }
    let bad: [&[u8]; 14] = [
        b"", &long, b"a.crc", b".crc", b"\xc3", b"a\\", b"/b", b"a:b", b"*", b"?", b"\"", b"<",
        b">", b"|",
    ];
    for id in bad {
        assert!(rt; !is_id(id), "{id:?}");
    }
}

#[test]
fn a_file_is_filled_up_to_whole_pages(rt: HostRuntime) -> Result<(), Fail> {
    for (len, want) in [(0, 4096), (1, 4096), (4096, 4096), (4097, 8192)] {
        let mut bytes = Vec::new(rt.alloc());
        bytes.resize(len, 7)?;
        let filled = fill_up(bytes)?;
        assert_eq!(rt; filled.len(), want);
        let kept = filled.iter().filter(|b| **b == 7).count();
        assert_eq!(rt; kept, len);
    }
    Ok(())
}

// What stands in the two files beside the payload.
#[derive(Clone, Copy)]
struct Row {
    version: u32,
    flags: u32,
    header: u32,
    size: u32,
    checksum: u32,
    last_size: u32,
    last_checksum: u32,
}

const fn words(version: u32, sizes: [u32; 3], checksums: [u32; 2]) -> Row {
    Row {
        version,
        flags: 0,
        header: sizes[0],
        size: sizes[1],
        checksum: checksums[0],
        last_size: sizes[2],
        last_checksum: checksums[1],
    }
}

fn meta_of(row: Row) -> [u8; 112] {
    let mut meta = [0u8; 112];
    store_word(&mut meta, WORD_CHECKSUM, row.checksum);
    store_word(&mut meta, WORD_VERSION, row.version);
    store_word(&mut meta, WORD_SEQUENCE, 7);
    store_word(&mut meta, WORD_SIZE, row.size);
    store_word(&mut meta, WORD_LAST_SIZE, row.last_size);
    store_word(&mut meta, WORD_LAST_CHECKSUM, row.last_checksum);
    store_word(&mut meta, WORD_FLAGS_LOW, row.flags);
    meta
}

fn body_of(row: Row) -> [u8; 15] {
    let mut body = [0u8; 15];
    store_word(&mut body, 0, row.header);
    body[4..].copy_from_slice(&PAYLOAD);
    body
}

// The number of pairs, or none where the record is refused.
fn pairs_of(alloc: Global, row: Row) -> Result<Option<usize>, Memory> {
    let (body, meta) = (body_of(row), meta_of(row));
    match shown(&body, &meta) {
        Ok(seen) => Ok(Some(base_map(alloc, &body, &meta, seen)?.len())),
        Err(_) => Ok(None),
    }
}

#[test]
fn the_first_image_that_agrees_and_has_a_map_is_shown(rt: HostRuntime) -> Result<(), Fail> {
    let whole = words(3, [11, 11, 4], [CRC, CRC_OF_4]);
    let lost = words(3, [u32::MAX, u32::MAX, 0], [5, 1]);
    let rows = [
        (whole, Ok(Shown::Whole(11)), Some(1)),
        (words(0, [0; 3], [0; 2]), Ok(Shown::Whole(0)), Some(0)),
        (Row { size: 4, ..whole }, Ok(Shown::Header(11)), Some(1)),
        (
            Row {
                checksum: 5,
                ..whole
            },
            Ok(Shown::Last(4)),
            Some(0),
        ),
        (lost, Ok(Shown::Damaged(Damage::Length)), Some(0)),
        (
            Row {
                last_checksum: 0,
                ..lost
            },
            Ok(Shown::Last(0)),
            Some(0),
        ),
        (
            Row {
                version: 4,
                flags: 1,
                ..whole
            },
            Ok(Shown::Damaged(Damage::Content)),
            Some(0),
        ),
        (
            Row {
                version: 9,
                ..whole
            },
            Err(RecordFault::Version(9)),
            None,
        ),
        (Row { flags: 2, ..whole }, Err(RecordFault::Flags(2)), None),
    ];
    for (row, want, pairs) in rows {
        assert_eq!(rt; shown(&body_of(row), &meta_of(row)), want);
        assert_eq!(rt; pairs_of(rt.alloc(), row)?, pairs, "for {want:?}");
    }
    Ok(())
}
