// The changes of a journal, copied.
use change_log::{Act, Change};
use expiring_map::{Bytes, Memory, Pair, Pairs};
use lock_rules::LockKind;
use region_words::{Event, Mark, Side, What, changes_in};
use std::alloc::Global;
use std::test::Fail;

fn bytes(alloc: Global, text: &str) -> Result<Bytes, Memory> {
    Bytes::copy_of(alloc, text.as_bytes())
}

fn pairs(alloc: Global, rows: &[(&str, &str, u32)]) -> Result<Pairs, Memory> {
    let mut pairs = Vec::new(alloc);
    for (key, value, expiry) in rows {
        pairs.push(Pair {
            key: bytes(alloc, key)?,
            value: bytes(alloc, value)?,
            expiry: *expiry,
        })?;
    }
    Ok(Pairs::of_vec(pairs))
}

// A store of the sequence.
fn store(mark: Mark) -> What {
    What::Store {
        side: Side::Meta,
        word: 2,
        value: 7,
        mark,
    }
}

// The events by which an opener makes a change: its last store alone is marked.
fn make(journal: &mut Vec<Event>, who: u32, act: Act) -> Result<(), Memory> {
    let change = Change { maker: who, act };
    for what in [
        What::Lock(LockKind::Exclusive),
        store(Mark::Plain),
        store(Mark::Commit(change)),
        What::Unlock,
    ] {
        journal.push(Event { who, what })?;
    }
    Ok(())
}

// A change of each kind, with its maker.
fn acts(alloc: Global) -> Result<[(u32, Act); 9], Memory> {
    let key = bytes(alloc, "k")?;
    let value = bytes(alloc, "abc")?;
    let expiry = 9;
    let gone = bytes(alloc, "gone")?;
    let restored = pairs(alloc, &[("a", "x", 0), ("b", "yz", 5)])?;
    let recovered = pairs(alloc, &[("c", "", 4_294_967_295)])?;
    let (now, seconds) = (101, 60);
    Ok([
        (1, Act::Put { key, value, expiry }),
        (2, Act::Remove { key: gone }),
        (2, Act::Clear),
        (1, Act::Pack { now: 100 }),
        (2, Act::Enable { now, seconds }),
        (1, Act::Disable { now: 102 }),
        (1, Act::Restored { pairs: restored }),
        (2, Act::Discarded),
        (1, Act::Recovered { pairs: recovered }),
    ])
}

// Two openers make the changes, and one of them dies.
fn journal(alloc: Global) -> Result<Vec<Event>, Memory> {
    let mut journal = Vec::new(alloc);
    for (who, act) in acts(alloc)? {
        make(&mut journal, who, act)?;
    }
    let what = What::Died { torn: None };
    journal.push(Event { who: 2, what })?;
    Ok(journal)
}

fn text(bytes: &Bytes) -> &str {
    std::str::from_utf8(bytes.as_slice()).unwrap_or("?")
}

fn line_of_pairs(alloc: Global, name: &str, pairs: &Pairs) -> Result<String, Fail> {
    let mut line = format!(in alloc; "{name}")?;
    for pair in pairs.as_slice() {
        let (key, value) = (text(&pair.key), text(&pair.value));
        line.push_str(&format!(in alloc; " ({key} {value} {})", pair.expiry)?)?;
    }
    Ok(line)
}

// An act in words, with all that it carries.
fn line_of(alloc: Global, act: &Act) -> Result<String, Fail> {
    Ok(match act {
        Act::Put { key, value, expiry } => {
            format!(in alloc; "put {} {} {expiry}", text(key), text(value))?
        }
        Act::Remove { key } => format!(in alloc; "remove {}", text(key))?,
        Act::Clear => format!(in alloc; "clear")?,
        Act::Pack { now } => format!(in alloc; "pack {now}")?,
        Act::Enable { now, seconds } => format!(in alloc; "enable {now} {seconds}")?,
        Act::Disable { now } => format!(in alloc; "disable {now}")?,
        Act::Restored { pairs } => line_of_pairs(alloc, "restored", pairs)?,
        Act::Discarded => format!(in alloc; "discarded")?,
        Act::Recovered { pairs } => line_of_pairs(alloc, "recovered", pairs)?,
    })
}

#[test]
fn the_marked_changes_are_copied_in_the_order_of_their_stores(rt: HostRuntime) -> Result<(), Fail> {
    let alloc = rt.alloc();
    let changes = changes_in(alloc, &journal(alloc)?)?;
    let wanted = [
        (1, "put k abc 9"),
        (2, "remove gone"),
        (2, "clear"),
        (1, "pack 100"),
        (2, "enable 101 60"),
        (1, "disable 102"),
        (1, "restored (a x 0) (b yz 5)"),
        (2, "discarded"),
        (1, "recovered (c  4294967295)"),
    ];
    assert_eq!(rt; changes.as_slice().len(), wanted.len());
    for (change, (maker, line)) in changes.as_slice().iter().zip(wanted) {
        assert_eq!(rt; line_of(alloc, &change.act)?.as_str(), line);
        assert_eq!(rt; change.maker, maker, "at {line}");
    }
    Ok(())
}
