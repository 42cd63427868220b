// Texts written by hand, and inputs and outputs that fail.
use change_log::{Act, Answer, Call, Change, Reply};
use expiring_map::{Bytes, Keys, Memory, Pairs};
use meta_record::{
    WORD_CHECKSUM, WORD_FLAGS_LOW, WORD_LAST_CHECKSUM, WORD_LAST_SIZE, WORD_SEQUENCE, WORD_SIZE,
    WORD_VERSION, check_record, load_word, record_of, store_word,
};
use region_words::{MemSink, MemSource};
use script_lang::{
    Outcome, Reason, ScriptStop, answer_text, changes_text, outcome_text, read_script, region_text,
    write_all,
};
use std::alloc::Global;
use std::test::Fail;

// What stands in the words of the two files; the header is the record's size.
#[derive(Clone, Copy)]
struct Stored {
    version: u32,
    flags: u32,
    size: u32,
    checksum: u32,
    last: [u32; 2],
}

fn meta_of(row: Stored) -> [u8; 112] {
    let mut meta = [0u8; 112];
    store_word(&mut meta, WORD_CHECKSUM, row.checksum);
    store_word(&mut meta, WORD_VERSION, row.version);
    store_word(&mut meta, WORD_SEQUENCE, row.version.min(1));
    store_word(&mut meta, WORD_SIZE, row.size);
    store_word(&mut meta, WORD_LAST_SIZE, row.last[0]);
    store_word(&mut meta, WORD_LAST_CHECKSUM, row.last[1]);
    store_word(&mut meta, WORD_FLAGS_LOW, row.flags);
    meta
}

fn body_of(size: u32, payload: &[u8]) -> [u8; 4096] {
    let mut body = [0u8; 4096];
    store_word(&mut body, 0, size);
    let front = payload.len().min(4092);
    body[4..4 + front].copy_from_slice(&payload[..front]);
    body
}

const WHOLE: Stored = Stored {
    version: 3,
    flags: 0,
    size: 11,
    checksum: 0x3a65_95d3,
    last: [4, 0x4c99_85d1],
};

const FRESH: Stored = Stored {
    version: 0,
    flags: 0,
    size: 0,
    checksum: 0,
    last: [0, 0],
};

const WITH_EXPIRY: Stored = Stored {
    version: 4,
    flags: 1,
    size: 15,
    checksum: 0x000c_eb02,
    last: [4, 0x4c99_85d1],
};

// The region's text behind what stands in `out`, or nothing where the record is refused.
fn text_of(alloc: Global, row: Stored, payload: &[u8]) -> Result<Vec<u8>, Memory> {
    let mut out = b"text\n".to_vec(alloc)?;
    let (body, meta) = (body_of(row.size, payload), meta_of(row));
    if check_record(&record_of(&meta), load_word(&body, 0)).is_ok() {
        region_text(alloc, &body, &meta, &mut out)?;
    }
    Ok(out)
}

#[test]
fn a_region_is_printed_in_lines(rt: HostRuntime) -> Result<(), Fail> {
    let rows: [(Stored, &[u8], &[u8]); 3] = [
        (
            WHOLE,
            b"\xff\xff\xff\x07\x01k\x04\x03abc",
            b"text\nregion data 4096 version 3 sequence 1 flags 0\nsizes header 11 record 11 last 4\nchecksums record 3a6595d3 last 4c9985d1\nshown whole 11\npairs 1\npair 6b 03616263 0\n",
        ),
        (
            FRESH,
            b"",
            b"text\nregion data 4096 version 0 sequence 0 flags 0\nsizes header 0 record 0 last 0\nchecksums record 00000000 last 00000000\nshown whole 0\npairs 0\n",
        ),
        (
            WITH_EXPIRY,
            b"\xff\xff\xff\x07\x01k\x08\x03abc\x0b\x01\0\0",
            b"text\nregion data 4096 version 4 sequence 1 flags 1\nsizes header 15 record 15 last 4\nchecksums record 000ceb02 last 4c9985d1\nshown whole 15\npairs 1\npair 6b 03616263 267\n",
        ),
    ];
    for (row, payload, want) in rows {
        assert_eq!(rt; text_of(rt.alloc(), row, payload)?.as_slice(), want);
    }
    Ok(())
}

fn answer(call: Call, reply: Reply) -> Answer {
    Answer {
        who: 1,
        call,
        now: 100,
        begun: 0,
        place: 1,
        ended: 2,
        reply,
        loads: 11,
        stores: 13,
        locks: 1,
    }
}

#[test]
fn an_answer_is_printed_in_a_line(rt: HostRuntime) -> Result<(), Fail> {
    let alloc = rt.alloc();
    let call = Call::Put {
        key: Bytes::copy_of(alloc, b"k")?,
        value: Bytes::copy_of(alloc, b"\x03abc")?,
        seconds: 0,
    };
    let mut out = Vec::new(alloc);
    answer_text(alloc, &answer(call, Reply::Done), &mut out)?;
    let mut keys = Vec::new(alloc);
    keys.push(Bytes::copy_of(alloc, b"k")?)?;
    keys.push(Bytes::copy_of(alloc, b"")?)?;
    answer_text(
        alloc,
        &answer(Call::Keys, Reply::Keys(Keys::of_vec(keys))),
        &mut out,
    )?;
    let want =
        b"answer 1 put 6b 03616263 0 now 100 begun 0 place 1 ended 2 loads 11 stores 13 locks 1 reply done\nanswer 1 keys now 100 begun 0 place 1 ended 2 loads 11 stores 13 locks 1 reply keys 2 6b -\n";
    assert_eq!(rt; out.as_slice(), want.as_slice());
    Ok(())
}

#[test]
fn an_outcome_is_printed_in_a_line(rt: HostRuntime) -> Result<(), Fail> {
    let alloc = rt.alloc();
    let rows: [(Outcome, &[u8]); 3] = [
        (Outcome::Blocked { who: 1, holder: 2 }, b"blocked 1 by 2\n"),
        (
            Outcome::Stopped {
                who: 1,
                reason: Reason::Full { need: 67_108_882 },
            },
            b"stopped 1 full 67108882 67108864\n",
        ),
        (
            Outcome::Answered(answer(Call::Count, Reply::Count(3))),
            b"answer 1 count now 100 begun 0 place 1 ended 2 loads 11 stores 13 locks 1 reply count 3\n",
        ),
    ];
    for (outcome, want) in &rows {
        let mut out = Vec::new(alloc);
        outcome_text(alloc, outcome, &mut out)?;
        assert_eq!(rt; out.as_slice(), *want);
    }
    Ok(())
}

#[test]
fn changes_are_numbered_from_0(rt: HostRuntime) -> Result<(), Fail> {
    let alloc = rt.alloc();
    let restored = Act::Restored {
        pairs: Pairs::of_vec(Vec::new(alloc)),
    };
    let mut changes = Vec::new(alloc);
    for (maker, act) in [(1, Act::Pack { now: 100 }), (2, restored), (1, Act::Clear)] {
        changes.push(Change { maker, act })?;
    }
    let mut out = Vec::new(alloc);
    changes_text(alloc, &changes, &mut out)?;
    let want = b"changes 3\nchange 0 1 pack 100\nchange 1 2 restored 0\nchange 2 1 clear\n";
    assert_eq!(rt; out.as_slice(), want.as_slice());
    Ok(())
}

#[test]
fn a_script_is_read_to_its_end_or_not_at_all(rt: HostRuntime) -> Result<(), Fail> {
    let alloc = rt.alloc();
    let mut source = MemSource::new(b"open leave\n".to_vec(alloc)?, [0u64].to_vec(alloc)?);
    let failed = matches!(read_script(alloc, &mut source), Err(ScriptStop::ReadFault));
    assert!(rt; failed);
    let script = read_script(alloc, &mut source)?;
    assert_eq!(rt; script.as_slice(), b"open leave\n".as_slice());
    Ok(())
}

#[test]
fn a_full_sink_keeps_the_front_of_a_text(rt: HostRuntime) -> Result<(), Fail> {
    let alloc = rt.alloc();
    let text = b"region data".as_slice();
    for (room, done, want) in [(10, false, b"region dat".as_slice()), (11, true, text)] {
        let mut sink = MemSink::new(alloc, room, Vec::new(alloc))?;
        assert_eq!(rt; write_all(&mut sink, text).is_ok(), done);
        assert_eq!(rt; sink.written(), want);
    }
    Ok(())
}
