// Deaths in a put of the pair k and d behind the pair k and abc. Its item is five bytes, 01 6b 02 01 64: the first of them ends the data
// file's word 3, the others are word 4. Its steps are a lock, two looks, the file's size, the places, those two words, the header, two
// words of the other file and an unlock.
ghost use Rattle.std.specs.Prelude.{◌≡◌, false, None};
ghost use Rattle.opener.specs.Opener.{Tied};

use crate::calls::{End, ask, end_of, finish, get, opener_of, put};
use change_log::Call;
use expiring_map::Memory;
use opener::Opener;
use region_words::{LocalSeat, Share};
use std::alloc::Global;
use std::mem;
use test_support::{BODY, META, opened};

const STORED: [u8; 20] = *b"\x0b\0\0\0\xff\xff\xff\x07\x01k\x04\x03abc\0\0\0\0\0";

// Whether a whole call is answered.
fn answers<S: Share>(opener: &mut Opener, share: &mut S, call: Result<Call, Memory>) -> bool
    requires { Tied opener.old.core (S.state share.old) }
    ensures { Tied opener.new.core (S.state share.new) }
{
    match call {
        Ok(call) => ask(opener, share, call) == End::Answered,
        Err(_) => false,
    }
}

// Whether a call is begun.
fn begins<S: Share>(opener: &mut Opener, share: &S, call: Result<Call, Memory>) -> bool
    requires { Tied opener.old.core (S.state share.now) }
    ensures { Tied opener.new.core (S.state share.now) }
{
    match call {
        Ok(call) => opener.begin(share, call, 100).is_ok(),
        Err(_) => false,
    }
}

// An opener gets the pair and makes so many steps of the put. Whether it came to that.
fn goes_into_a_put<S: Share>(alloc: Global, opener: &mut Opener, share: &mut S, steps: u32) -> bool
    requires { Tied opener.old.core (S.state share.old) }
    ensures { Tied opener.new.core (S.state share.new) }
{
    if !answers(opener, share, get(alloc)) {
        return false;
    }
    if !begins(opener, share, put(alloc, 0)) {
        return false;
    }
    end_of(finish(opener, share, steps));
    true
}

// Whether an opener dies.
fn dies<S: Share>(opener: Opener, share: &mut S, torn: Option<u32>) -> bool
    requires { Tied opener.core (S.state share.old) }
{
    match opener.die(share, torn) {
        Ok(()) => true,
        Err(opener) => {
            mem::drop(opener);
            false
        }
    }
}

// An opener dies after so many steps of the put. Whether it came to that.
fn dies_in_a_put<S: Share>(
    alloc: Global,
    mut opener: Opener,
    share: &mut S,
    steps: u32,
    torn: Option<u32>,
) -> bool
    requires { Tied opener.core (S.state share.old) }
{
    let is_begun = goes_into_a_put(alloc, &mut opener, share, steps);
    let is_dead = dies(opener, share, torn);
    is_begun && is_dead
}

// That of a new opener.
fn new_one_dies<S: Share>(alloc: Global, share: &mut S, steps: u32, torn: Option<u32>) -> bool
    requires alive { (S.state share.old).ended ≡ false }
    requires free { (S.state share.old).holds ≡ None }
{
    match opener_of(alloc, share) {
        Some(opener) => dies_in_a_put(alloc, opener, share, steps, torn),
        None => false,
    }
}

// The first words of a region's data file.
fn first_words(seat: &LocalSeat) -> Option<[u8; 20]> {
    let mut words = [0; 20];
    words.copy_from_slice(seat.region().data_bytes().get(..20)?);
    Some(words)
}

// Those that a death leaves after so many steps of the put.
fn left_by_death(alloc: Global, steps: u32, torn: Option<u32>) -> Option<[u8; 20]> {
    match opened(alloc, &BODY, &META, &[]) {
        Some(mut seat) => {
            let is_dead = new_one_dies(alloc, &mut seat, steps, torn);
            let words = first_words(&seat);
            mem::drop(seat);
            if is_dead { words } else { None }
        }
        None => None,
    }
}

// Those that so many steps of the put leave.
fn stored_by(steps: u32) -> [u8; 20] {
    let mut words = STORED;
    if steps >= 6 {
        words[15] = 1;
    }
    if steps >= 7 {
        words[16..].copy_from_slice(b"k\x02\x01d");
    }
    if steps >= 8 {
        words[0] = 16;
    }
    words
}

#[test]
fn a_death_that_tears_nothing_leaves_what_was_stored(rt: HostRuntime) {
    for steps in 0..13u32 {
        let left = left_by_death(rt.alloc(), steps, None);
        assert_eq!(rt; left, Some(stored_by(steps)), "{steps}");
    }
}

#[test]
fn a_death_where_no_payload_word_is_next_tears_nothing(rt: HostRuntime) {
    for steps in [0u32, 1, 2, 3, 4, 7, 8, 9, 10, 11] {
        let left = left_by_death(rt.alloc(), steps, Some(0xffff_ffff));
        assert_eq!(rt; left, Some(stored_by(steps)), "{steps}");
    }
}

// What a death with these bits leaves of word 3 and of word 4, where that word is next.
fn torn_words(alloc: Global, steps: u32, bits: u32) -> Option<[u8; 8]> {
    let words = left_by_death(alloc, steps, Some(bits))?;
    let mut torn = [0; 8];
    torn.copy_from_slice(&words[12..]);
    Some(torn)
}

#[test]
fn a_death_where_a_payload_word_is_next_tears_the_bytes_that_change(rt: HostRuntime) {
    let alloc = rt.alloc();
    // of word 3 the bytes abc stay, and of word 4 none
    let rows = [
        (5u32, 0xffff_ffffu32, *b"abc\xff\0\0\0\0"),
        (5, 0x4433_2211, *b"abc\x44\0\0\0\0"),
        (6, 0xffff_ffff, *b"abc\x01\xff\xff\xff\xff"),
        (6, 0x4433_2211, *b"abc\x01\x11\x22\x33\x44"),
    ];
    for (steps, bits, torn) in rows {
        assert_eq!(rt; torn_words(alloc, steps, bits), Some(torn), "{steps}");
    }
}
