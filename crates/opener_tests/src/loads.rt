// How many steps a get takes over a share that tells nothing, by the two words that its looks find.
use crate::calls::{End, ask, end_of, finish, get, opener_of};
use meta_record::Shown;
use opener::Stop;
use std::alloc::Global;
use std::mem;
use test_support::Silent;

// What a second get comes to in so many steps, where the region then has this checksum and this sequence.
fn second_get(alloc: Global, checksum: u32, sequence: u32, steps: u32) -> Option<End> {
    let mut share = Silent::new(
        [11, 0x07ff_ffff, 0x0304_6b01, 0x0063_6261],
        [0x3a65_95d3, 3, 1, 0, 0, 0, 0, 11, 4, 0x4c99_85d1],
    );
    let mut opener = opener_of(alloc, &share)?;
    ask(&mut opener, &mut share, get(alloc).ok()?);
    share.change(checksum, sequence);
    let end = match opener.begin(&share, get(alloc).ok()?, 100) {
        Ok(()) => end_of(finish(&mut opener, &mut share, steps)),
        Err(_) => End::NotBegun,
    };
    mem::drop(opener);
    Some(end)
}

#[test]
fn a_get_loads_what_its_looks_ask_for(rt: HostRuntime) {
    let last = End::Stopped(Stop::NotWhole(Shown::Last(4)));
    let rows = [
        (0x3a65_95d3, 1, 2, End::Answered),
        // two looks, a lock, thirteen loads and an unlock
        (0x3a65_95d3, 2, 17, End::Answered),
        (7, 2, 17, last),
        // before those loads three words of the record, and the word in which the kept payload ends
        (7, 1, 21, last),
    ];
    for (checksum, sequence, steps, end) in rows {
        let before = second_get(rt.alloc(), checksum, sequence, steps - 1);
        assert_eq!(rt; before, Some(End::GoesOn));
        assert_eq!(rt;
            second_get(rt.alloc(), checksum, sequence, steps),
            Some(end)
        );
    }
}
