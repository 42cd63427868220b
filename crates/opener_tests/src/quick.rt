// Quick reads, over a region in memory and over a share that tells nothing: an opener looks and gives the kept value, and an opener
// without its handler does both at once.
ghost use Rattle.std.specs.Prelude.{◌≡◌, false, None};
ghost use Rattle.opener.specs.Opener.{Tied};
ghost use Rattle.test_support.specs.Silent.{silent_state};

use crate::calls::{End, ask, ask_core, core_of, get, opener_of};
use opener::{Opener, OpenerCore, Quick, Stop};
use region_words::Share;
use std::alloc::Global;
use std::mem;
use test_support::{BODY, META, Silent, opened};

// Whether a quick read finds the value that is wanted, or why it isn't answered. None where a call runs or the opener has ended.
type Look = Option<Result<bool, Quick>>;

// A quick read that wants this value.
fn finds<S: Share>(opener: &mut Opener, share: &mut S, key: &[u8], want: Option<&[u8]>) -> Look
    requires { Tied opener.old.core (S.state share.old) }
    ensures { Tied opener.new.core (S.state share.new) }
{
    if !opener.is_idle() {
        return None;
    }
    match opener.look(share) {
        Ok(()) => Some(Ok(opener.kept_value(key, 100) == want)),
        Err(why) => Some(Err(why)),
    }
}

// The same of an opener without its handler, in one call.
fn core_finds<S: Share>(
    core: &mut OpenerCore,
    share: &mut S,
    key: &[u8],
    want: Option<&[u8]>,
) -> Look
    requires { Tied core.old (S.state share.old) }
    ensures { Tied core.new (S.state share.new) }
{
    if !core.is_idle() {
        return None;
    }
    match core.quick_get(share, key, 100) {
        Ok(value) => Some(Ok(value == want)),
        Err(why) => Some(Err(why)),
    }
}

// What quick reads come to: one before any call, and after a get two, of the key of the store and of one that it hasn't.
#[derive(PartialEq, Debug, Drop)]
struct Looks {
    before: Look,
    end: End,
    found: Look,
    absent: Look,
    ended: bool,
    events: usize,
}

// Those of a new opener, whose calls on its share of the listed numbers fail.
fn looks_of(alloc: Global, fails: &[u64]) -> Option<Looks> {
    let mut seat = opened(alloc, &BODY, &META, fails)?;
    let mut opener = opener_of(alloc, &seat)?;
    let before = finds(&mut opener, &mut seat, b"k", None);
    let end = ask(&mut opener, &mut seat, get(alloc).ok()?);
    let found = finds(&mut opener, &mut seat, b"k", Some(b"\x03abc"));
    let absent = finds(&mut opener, &mut seat, b"a", None);
    let ended = opener.is_ended();
    mem::drop(opener);
    Some(Looks {
        before,
        end,
        found,
        absent,
        ended,
        events: seat.region().journal().len(),
    })
}

// Those of an opener without its handler.
fn core_looks_of(alloc: Global, fails: &[u64]) -> Option<Looks> {
    let mut seat = opened(alloc, &BODY, &META, fails)?;
    let mut core = core_of(alloc, &seat);
    let before = core_finds(&mut core, &mut seat, b"k", None);
    let end = ask_core(&mut core, &mut seat, get(alloc).ok()?);
    let found = core_finds(&mut core, &mut seat, b"k", Some(b"\x03abc"));
    let absent = core_finds(&mut core, &mut seat, b"a", None);
    let ended = core.is_ended();
    mem::drop(core);
    Some(Looks {
        before,
        end,
        found,
        absent,
        ended,
        events: seat.region().journal().len(),
    })
}

// A share whose region holds the pair.
fn silent() -> Silent
    ensures alive { (silent_state result).ended ≡ false }
    ensures free { (silent_state result).holds ≡ None }
{
    Silent::new(
        [11, 0x07ff_ffff, 0x0304_6b01, 0x0063_6261],
        [0x3a65_95d3, 3, 1, 0, 0, 0, 0, 11, 4, 0x4c99_85d1],
    )
}

// What a quick read comes to after a get, where the region then has this checksum and this sequence.
fn look_after_a_get(alloc: Global, checksum: u32, sequence: u32) -> Look {
    let mut share = silent();
    let mut opener = opener_of(alloc, &share)?;
    ask(&mut opener, &mut share, get(alloc).ok()?);
    share.change(checksum, sequence);
    let look = finds(&mut opener, &mut share, b"k", Some(b"\x03abc"));
    mem::drop(opener);
    look
}

// That of an opener without its handler.
fn core_look_after_a_get(alloc: Global, checksum: u32, sequence: u32) -> Look {
    let mut share = silent();
    let mut core = core_of(alloc, &share);
    ask_core(&mut core, &mut share, get(alloc).ok()?);
    share.change(checksum, sequence);
    let look = core_finds(&mut core, &mut share, b"k", Some(b"\x03abc"));
    mem::drop(core);
    look
}

#[test]
fn where_either_word_is_another_a_quick_read_is_stale(rt: HostRuntime) {
    let alloc = rt.alloc();
    let stale = |checksum, sequence| Some(Err(Quick::Stale { checksum, sequence }));
    assert_eq!(rt; look_after_a_get(alloc, 0x3a65_95d3, 1), Some(Ok(true)));
    assert_eq!(rt;
        look_after_a_get(alloc, 0x3a65_95d3, 2),
        stale(0x3a65_95d3, 2)
    );
    assert_eq!(rt; look_after_a_get(alloc, 7, 1), stale(7, 1));
    assert_eq!(rt; look_after_a_get(alloc, 7, 2), stale(7, 2));
}

#[test]
fn a_quick_get_comes_to_what_a_look_and_the_kept_value_do(rt: HostRuntime) {
    let alloc = rt.alloc();
    for fails in [0u64, 15, 16, 17, 18, 19] {
        let looks = looks_of(alloc, &[fails]).expect(&rt, "ample memory");
        assert_eq!(rt; core_looks_of(alloc, &[fails]), Some(looks), "call {fails}");
    }
    for (checksum, sequence) in [(0x3a65_95d3u32, 1u32), (0x3a65_95d3, 2), (7, 1), (7, 2)] {
        let look = look_after_a_get(alloc, checksum, sequence);
        assert_eq!(rt; core_look_after_a_get(alloc, checksum, sequence), look);
    }
}

#[test]
fn without_an_image_a_quick_read_is_cold_and_loads_nothing(rt: HostRuntime) {
    let looks = looks_of(rt.alloc(), &[0]).expect(&rt, "ample memory");
    assert_eq!(rt; looks.before, Some(Err(Quick::Cold)));
    assert_eq!(rt; looks.end, End::Stopped(Stop::Fault));
}

#[test]
fn after_a_get_quick_reads_give_its_values_with_no_event(rt: HostRuntime) {
    let looks = looks_of(rt.alloc(), &[]).expect(&rt, "ample memory");
    assert_eq!(rt; looks.found, Some(Ok(true)));
    assert_eq!(rt; looks.absent, Some(Ok(true)));
    assert_eq!(rt; looks.ended, false);
    assert_eq!(rt; looks.events, 2);
}

#[test]
fn a_peek_that_fails_ends_the_opener(rt: HostRuntime) {
    for fails in [15u64, 16] {
        let looks = looks_of(rt.alloc(), &[fails]).expect(&rt, "ample memory");
        assert_eq!(rt; looks.found, Some(Err(Quick::Fault)), "call {fails}");
        assert_eq!(rt; looks.absent, None);
        assert_eq!(rt; looks.ended, true);
        assert_eq!(rt; looks.events, 3);
    }
}

#[test]
fn a_quick_read_makes_two_calls(rt: HostRuntime) {
    for fails in [17u64, 18] {
        let looks = looks_of(rt.alloc(), &[fails]).expect(&rt, "ample memory");
        assert_eq!(rt; looks.found, Some(Ok(true)), "call {fails}");
        assert_eq!(rt; looks.absent, Some(Err(Quick::Fault)));
    }
    let looks = looks_of(rt.alloc(), &[19]).expect(&rt, "ample memory");
    assert_eq!(rt; looks.ended, false);
}
