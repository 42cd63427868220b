// What a run leaves, and whether its checksums told its payloads apart.
ghost use Rattle.std.specs.Prelude.{◌≡◌, ◌↔◌, IfOk, IsTrue, reverse};
ghost use Rattle.region_words.specs.Region.{region_of};
ghost use Rattle.region_words.specs.Past.{region_after};
ghost use Rattle.region_words.specs.Apart.{Apart};
ghost use Rattle.death_model.specs.InRange.{AreInRange, ArePages};

use crate::files::Files;
use crate::run::Run;
use expiring_map::Memory;
use region_words::Event;
use std::alloc::Global;

/// The region after these events, the oldest first: what an opener finds that comes after them.
pub fn after_death(
    alloc: Global,
    body: &[u8],
    meta: &[u8],
    events: &[Event],
) -> Result<Files, Memory>
    requires { AreInRange (region_of body.now meta.now) (reverse events.now) }
    ensures { IfOk result (λ files. region_of files.data.items files.meta.items ≡ region_after (region_of body.now meta.now) (reverse events.now)) }
{
    let mut files = Files::copy_of(alloc, body, meta)?;
    for event in events {
        files.apply(&event.what)?;
    }
    Ok(files)
}

/// Whether the checksums of this run told its payloads apart, the events listed with the oldest first: of the payloads at which a
/// checksum is looked at in its course, different ones have different checksums. The promises about openers rest on that.
///
/// One payload of each checksum is copied. After an event a payload is summed and looked up only where its size was changed, a byte
/// of it, or the file's size, or where the event stores a checksum without a change. So time and memory go with the payloads that
/// the events change, each as often as one does; other events cost a few words.
pub fn apart_holds(
    alloc: Global,
    body: &[u8],
    meta: &[u8],
    events: &[Event],
) -> Result<bool, Memory>
    requires data_pages { ArePages body.now }
    requires meta_pages { ArePages meta.now }
    requires range { AreInRange (region_of body.now meta.now) (reverse events.now) }
    ensures { IfOk result (λ apart. IsTrue apart ↔ Apart (region_of body.now meta.now) (reverse events.now)) }
{
    let files = Files::copy_of(alloc, body, meta)?;
    let (mut run, apart) = Run::start(alloc, files)?;
    if !apart {
        return Ok(false);
    }
    for event in events {
        if !run.step(event)? {
            return Ok(false);
        }
    }
    Ok(true)
}

#[cfg(test)]
mod tests {
    use super::*;
    use crate::range::are_in_range;
    use change_log::{Act, Change};
    use expiring_map::Bytes;
    use lock_rules::LockKind;
    use meta_record::{Shown, load_word};
    use region_words::{Mark, Side, TornWord, What, fill_up, shown};
    use std::test::Fail;

    // A store of the pair k, abc, without the zeros behind. The checksums are those of zlib.
    const BODY: [u8; 15] = *b"\x0b\0\0\0\xff\xff\xff\x07\x01k\x04\x03abc";

    const META: [u8; 40] =
        *b"\xd3\x95\x65\x3a\x03\0\0\0\x01\0\0\0\0\0\0\0\0\0\0\0\0\0\0\0\0\0\0\0\x0b\0\0\0\x04\0\0\0\xd1\x85\x99\x4c";

    // That of the payload with the item of k, d behind.
    const NEXT_CHECKSUM: u32 = 0x685b_2d6c;

    // The events of a put of k, d by opener 1, of which so many are made before it dies.
    fn cut_put(alloc: Global, made: usize, torn: Option<TornWord>) -> Result<Vec<Event>, Fail> {
        let change = Change {
            maker: 1,
            act: Act::Put {
                key: Bytes::copy_of(alloc, b"k")?,
                value: Bytes::copy_of(alloc, b"\x01d")?,
                expiry: 0,
            },
        };
        let mut events = Vec::new(alloc);
        for what in [
            What::Lock(LockKind::Exclusive),
            What::data(3, 0x0163_6261),
            What::data(4, 0x6401_026b),
            What::data(0, 16),
            What::Store {
                side: Side::Meta,
                word: 0,
                value: NEXT_CHECKSUM,
                mark: Mark::Commit(change),
            },
            What::meta(7, 16),
        ] {
            events.push(Event { who: 1, what })?;
        }
        events.truncate(made);
        events.push(Event {
            who: 1,
            what: What::Died { torn },
        })?;
        Ok(events)
    }

    fn has_pages(bytes: &[u8]) -> bool
        ensures { IsTrue result → ArePages bytes.now }
    {
        !bytes.is_empty() && bytes.len() % 4096 == 0
    }

    // Whether a run is apart. `None` where it isn't in range.
    fn apart(
        alloc: Global,
        body: &[u8],
        meta: &[u8],
        events: &[Event],
    ) -> Result<Option<bool>, Memory> {
        if !has_pages(body) || !has_pages(meta) || !are_in_range(body, meta, events) {
            return Ok(None);
        }
        Ok(Some(apart_holds(alloc, body, meta, events)?))
    }

    // Data word 3, the header, the record's checksum and size, and what is shown, after so much of the put. `None` where it isn't in
    // range.
    fn left_by(
        alloc: Global,
        made: usize,
        torn: Option<TornWord>,
    ) -> Result<Option<([u32; 4], Shown)>, Fail> {
        let body = fill_up(BODY.to_vec(alloc)?)?;
        let meta = fill_up(META.to_vec(alloc)?)?;
        let events = cut_put(alloc, made, torn)?;
        if !are_in_range(&body, &meta, &events) {
            return Ok(None);
        }
        let files = after_death(alloc, &body, &meta, &events)?;
        if files.data.len() < 16 || files.meta.len() < 112 {
            return Ok(None);
        }
        let words = [
            load_word(&files.data, 3),
            load_word(&files.data, 0),
            load_word(&files.meta, 0),
            load_word(&files.meta, 7),
        ];
        Ok(Some((words, shown(&files.data, &files.meta)?)))
    }

    #[test]
    fn a_death_leaves_what_was_stored_and_a_torn_word(rt: HostRuntime) -> Result<(), Fail> {
        let torn = TornWord {
            word: 3,
            value: 0xff63_6261,
        };
        let rows = [
            (
                1,
                Some(torn),
                [0xff63_6261, 11, 0x3a65_95d3, 11],
                Shown::Whole(11),
            ),
            (
                2,
                None,
                [0x0163_6261, 11, 0x3a65_95d3, 11],
                Shown::Whole(11),
            ),
            (
                4,
                None,
                [0x0163_6261, 16, 0x3a65_95d3, 11],
                Shown::Whole(11),
            ),
            (
                5,
                None,
                [0x0163_6261, 16, NEXT_CHECKSUM, 11],
                Shown::Header(16),
            ),
            (
                6,
                None,
                [0x0163_6261, 16, NEXT_CHECKSUM, 16],
                Shown::Whole(16),
            ),
        ];
        for (made, torn, words, image) in rows {
            let left = left_by(rt.alloc(), made, torn)?;
            assert_eq!(rt; left, Some((words, image)), "after {made}");
        }
        Ok(())
    }

    #[test]
    fn the_payloads_of_a_put_are_apart_wherever_a_death_cuts_it(
        rt: HostRuntime,
    ) -> Result<(), Fail> {
        let body = fill_up(BODY.to_vec(rt.alloc())?)?;
        let meta = fill_up(META.to_vec(rt.alloc())?)?;
        for made in 1..7 {
            let events = cut_put(rt.alloc(), made, None)?;
            let apart = apart(rt.alloc(), &body, &meta, &events)?;
            assert_eq!(rt; apart, Some(true), "after {made}");
        }
        Ok(())
    }

    // The stores that write `buckeroo` over another payload of 8 bytes, so many of them.
    fn rewritten(alloc: Global, made: usize) -> Result<Vec<Event>, Memory> {
        let mut events = Vec::new(alloc);
        for what in [What::data(1, 0x6b63_7562), What::data(2, 0x6f6f_7265)] {
            events.push(Event { who: 1, what })?;
        }
        events.truncate(made);
        Ok(events)
    }

    #[test]
    fn two_payloads_of_one_checksum_are_not_apart(rt: HostRuntime) -> Result<(), Fail> {
        // both have the CRC-32 4ddb0c25, as zlib says
        let body = fill_up(b"\x08\0\0\0plumless".to_vec(rt.alloc())?)?;
        let meta = fill_up(META.to_vec(rt.alloc())?)?;
        for (made, want) in [(1, true), (2, false)] {
            let events = rewritten(rt.alloc(), made)?;
            let apart = apart(rt.alloc(), &body, &meta, &events)?;
            assert_eq!(rt; apart, Some(want), "after {made}");
        }
        Ok(())
    }
}
