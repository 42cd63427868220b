// Lines of scripts, spelled well and otherwise.
use change_log::Call;
use handlers::Strategy;
use script_lang::{Line, LineStop, read_line};
use std::alloc::Global;
use std::test::Fail;

fn read(alloc: Global, line: &[u8]) -> Result<Option<Line>, LineStop> {
    if line.len() < 1000 {
        read_line(alloc, line)
    } else {
        Err(LineStop::Memory)
    }
}

// Which kind of line it is, and its two numbers.
fn sketch(line: &Option<Line>) -> (u32, u32, u32) {
    match line {
        None => (0, 0, 0),
        Some(Line::Open(Strategy::Leave)) => (1, 0, 0),
        Some(Line::Open(_)) => (2, 0, 0),
        Some(Line::Begin { who, now, .. }) => (3, *who, *now),
        Some(Line::Step { who, count }) => (4, *who, *count),
        Some(Line::Die { who, torn: None }) => (5, *who, 0),
        Some(
            Line::Die {
                who,
                torn: Some(bits),
            },
        ) => (6, *who, *bits),
        Some(Line::Next { who, now, .. }) => (7, *who, *now),
    }
}

fn puts(line: &Option<Line>, wanted_key: &[u8], wanted_value: &[u8]) -> bool {
    match line {
        Some(
            Line::Begin {
                call: Call::Put {
                    key,
                    value,
                    seconds: 0,
                },
                ..
            },
        ) => key.as_slice() == wanted_key && value.as_slice() == wanted_value,
        _ => false,
    }
}

#[test]
fn each_line_names_what_it_says(rt: HostRuntime) -> Result<(), Fail> {
    let rows: [(&[u8], (u32, u32, u32)); 8] = [
        (b"open leave", (1, 0, 0)),
        (b"begin 1 100 put 6b text 616263 0", (3, 1, 100)),
        (b"step 1 1048576", (4, 1, 1_048_576)),
        (b"die 2 ffffffff", (6, 2, 4_294_967_295)),
        (b"die 1", (5, 1, 0)),
        (b"call 1 10 put 61 u32 1 0", (7, 1, 10)),
        (b"", (0, 0, 0)),
        (b"# x", (0, 0, 0)),
    ];
    for (line, wanted) in rows.iter() {
        assert!(rt; sketch(&read(rt.alloc(), line)?) == *wanted);
    }
    Ok(())
}

#[test]
fn a_put_has_its_key_and_its_encoded_value(rt: HostRuntime) -> Result<(), Fail> {
    let text = read(rt.alloc(), b"begin 1 100 put 6b text 616263 0")?;
    assert!(rt; puts(&text, b"k", b"\x03abc"));
    let number = read(rt.alloc(), b"begin 1 100 put 6B i32 -1 0")?;
    assert!(rt; puts(&number, b"k", b"\xff\xff\xff\xff\xff\xff\xff\xff\xff\x01"));
    Ok(())
}

#[test]
fn a_line_that_is_spelled_otherwise_is_bad(rt: HostRuntime) {
    let rows: [&[u8]; 11] = [
        b"step 1 0",
        b"step 1 1048577",
        b"step 01 1",
        b"begin 1 4294967296 sync",
        b"step  1 1",
        b"begin 1 1 sync\r",
        b"open Leave",
        b"begin 1 1 put 6b i32 -0 0",
        b"begin 1 1 get 6",
        b"begin 1 1 get ",
        b" open leave",
    ];
    for line in rows.iter() {
        assert_eq!(rt; read(rt.alloc(), line).err(), Some(LineStop::Bad));
    }
}
