// Histories of a few calls.
use change_log::{
    Act, Answer, Call, Change, Entry, Reply, WeaveStop, are_sound, check_legal, replay, weave,
};
use expiring_map::{Bytes, ExpiringMap, Memory, Pair, Pairs};
use std::alloc::Global;
use std::test::Fail;

fn bytes(alloc: Global, from: &[u8]) -> Result<Bytes, Memory> {
    Bytes::copy_of(alloc, from)
}

fn put(alloc: Global, key: &[u8], value: &[u8], expiry: u32) -> Result<Act, Memory> {
    Ok(Act::Put {
        key: bytes(alloc, key)?,
        value: bytes(alloc, value)?,
        expiry,
    })
}

fn pairs(alloc: Global, rows: &[(&[u8], u32)]) -> Result<Pairs, Memory> {
    let mut pairs = Vec::new(alloc);
    for (key, expiry) in rows {
        pairs.push(Pair {
            key: bytes(alloc, key)?,
            value: bytes(alloc, &[1])?,
            expiry: *expiry,
        })?;
    }
    Ok(Pairs::of_vec(pairs))
}

fn answer(who: u32, call: Call, place: u32, ended: u32, reply: Reply) -> Answer {
    Answer {
        who,
        call,
        now: 100,
        begun: place,
        place,
        ended,
        reply,
        loads: 0,
        stores: 0,
        locks: 0,
    }
}

fn get(alloc: Global, who: u32, place: u32, value: &[u8]) -> Result<Answer, Memory> {
    let call = Call::Get {
        key: bytes(alloc, b"k")?,
    };
    Ok(answer(who, call, place, 1, Reply::Value(bytes(alloc, value)?)))
}

fn one_put(alloc: Global) -> Result<Vec<Change>, Memory> {
    let mut changes = Vec::new(alloc);
    changes.push(Change {
        maker: 1,
        act: put(alloc, b"k", &[0x03, 0x61, 0x62, 0x63], 0)?,
    })?;
    Ok(changes)
}

fn answered_put(alloc: Global) -> Result<Answer, Memory> {
    let call = Call::Put {
        key: bytes(alloc, b"k")?,
        value: bytes(alloc, &[0x03, 0x61, 0x62, 0x63])?,
        seconds: 0,
    };
    Ok(answer(1, call, 0, 1, Reply::Done))
}

fn add(changes: &mut Vec<Change>, act: Act) -> Result<(), Memory> {
    changes.push(Change { maker: 1, act })?;
    Ok(())
}

fn add_writes(alloc: Global, changes: &mut Vec<Change>) -> Result<(), Memory> {
    add(changes, put(alloc, b"a", &[1], 0)?)?;
    add(changes, put(alloc, b"k", &[2], 110)?)?;
    add(changes, Act::Pack { now: 110 })?;
    add(
        changes,
        Act::Enable {
            now: 100,
            seconds: 10,
        },
    )?;
    add(changes, Act::Disable { now: 109 })
}

fn add_repairs(alloc: Global, changes: &mut Vec<Change>) -> Result<(), Memory> {
    let pairs_of_two = pairs(alloc, &[(b"j", 110), (b"k", 0)])?;
    add(
        changes,
        Act::Restored {
            pairs: pairs_of_two,
        },
    )?;
    add(
        changes,
        Act::Remove {
            key: bytes(alloc, b"k")?,
        },
    )?;
    let pairs_of_two = pairs(alloc, &[(b"j", 90), (b"k", 0)])?;
    add(
        changes,
        Act::Recovered {
            pairs: pairs_of_two,
        },
    )?;
    add(changes, Act::Discarded)
}

#[test]
fn each_change_does_its_deed(rt: HostRuntime) -> Result<(), Fail> {
    let alloc = rt.alloc();
    let base = ExpiringMap::new(alloc);
    let mut changes = Vec::new(alloc);
    add_writes(alloc, &mut changes)?;
    add_repairs(alloc, &mut changes)?;
    // The numbers of pairs that live at 109 and at 110 after each change.
    let counts = [
        (1, 1),
        (2, 1),
        (1, 1),
        (1, 0),
        (1, 1),
        (2, 1),
        (1, 0),
        (1, 1),
        (0, 0),
    ];
    assert_eq!(rt; changes.len(), 9);
    for (i, (before, after)) in counts.iter().enumerate() {
        let made = &changes[..i + 1];
        assert!(rt; are_sound(made));
        let map = replay(alloc, &base, made)?;
        assert_eq!(rt; map.count_at(109), *before, "at 109 after change {i}");
        assert_eq!(rt; map.count_at(110), *after, "at 110 after change {i}");
    }
    Ok(())
}

#[test]
fn a_value_is_read_after_its_put_alone(rt: HostRuntime) -> Result<(), Fail> {
    let alloc = rt.alloc();
    let base = ExpiringMap::new(alloc);
    let changes = one_put(alloc)?;
    assert!(rt; are_sound(&changes));
    for (place, legal) in [(1, true), (0, false)] {
        let answers = [
            answered_put(alloc)?,
            get(alloc, 1, place, &[0x03, 0x61, 0x62, 0x63])?,
        ];
        assert_eq!(rt;
            check_legal(alloc, &base, &changes, &answers)?,
            legal,
            "at place {place}"
        );
    }
    Ok(())
}

#[test]
fn reads_are_woven_by_place_and_caller(rt: HostRuntime) -> Result<(), Fail> {
    let alloc = rt.alloc();
    let changes = one_put(alloc)?;
    assert_eq!(rt; changes.len(), 1);
    let mut answers = Vec::new(alloc);
    for (who, place) in [(2, 1), (2, 0), (1, 0), (2, 0)] {
        answers.push(get(alloc, who, place, &[])?)?;
    }
    answers.push(answered_put(alloc)?)?;
    assert_eq!(rt; answers.len(), 5);
    let woven = weave(alloc, &changes, &answers)?;
    let wanted = [
        Entry::Read(2),
        Entry::Read(1),
        Entry::Read(3),
        Entry::Change(0),
        Entry::Read(0),
    ];
    assert_eq!(rt; woven.as_slice(), wanted.as_slice());
    answers.push(get(alloc, 1, 2, &[])?)?;
    assert_eq!(rt; answers.len(), 6);
    assert_eq!(rt;
        weave(alloc, &changes, &answers).err(),
        Some(WeaveStop::PlaceRange(5))
    );
    Ok(())
}
