// Partial loads: an image of the store with one pair goes on, or doesn't, in other regions.
ghost use Rattle.std.specs.Prelude.{◌≡◌, ◌≢◌, ◌≤◌, false, length, None, IfSome};
ghost use Rattle.region_words.specs.Past.{region_after};
ghost use Rattle.region_words.specs.Told.{OnTold};
ghost use Rattle.loader.specs.PartialLoads.{IsSoundImage};

use crate::loads::{CRC, holder, load_all, meta_with};
use loader::{Image, LoadStop, PartialLoading, Ran};
use lock_rules::LockKind;
use meta_record::{WORD_CHECKSUM, WORD_SEQUENCE, WORD_SIZE};
use region_words::{Share, Standing};
use std::alloc::Global;
use std::test::Fail;
use test_support::BODY;

// The payload of the store with the item k, d behind it, and its checksum from zlib.
const LONGER: [u8; 20] = *b"\x10\0\0\0\xff\xff\xff\x07\x01k\x04\x03abc\x01k\x02\x01d";

const CRC_OF_LONGER: u32 = 0x685b_2d6c;

// The image of the store with one pair.
fn kept(alloc: Global) -> Option<Image>
    ensures { IfSome result IsSoundImage }
{
    let mut seat = holder(alloc, &BODY, &meta_with(&[]), LockKind::Shared, &[])?;
    let (result, _) = load_all(alloc, &mut seat);
    Some(result.ok()?.image)
}

// What a partial load comes to, the loads that were made, and the image to which the kept one goes on.
fn go_on<S: Share>(
    alloc: Global,
    share: &mut S,
    image: Image,
) -> (Result<Ran, LoadStop>, u32, Option<Image>)
    requires alive { (S.state share.old).ended ≡ false }
    requires lock { (S.state share.old).holds ≢ None }
    requires sound { IsSoundImage image }
    requires file { OnTold (S.state share.old).told (λ h. image.standing.file_size ≤ length (region_after h.start h.past).data_bytes) }
{
    let mut loading = PartialLoading::new(alloc, image);
    let mut made = 0;
    loop {
        match loading.step(share) {
            Ok(Ran::Going) => made += 1,
            Ok(Ran::Holds) => return (Ok(Ran::Holds), made + 1, Some(loading.finish())),
            Ok(Ran::Fails) => return (Ok(Ran::Fails), made + 1, None),
            Err(stop) => return (Err(stop), made, None),
        }
    }
}

// The same in a region of these files.
fn go_on_in(
    alloc: Global,
    body: &[u8],
    words: &[(usize, u32)],
) -> Option<(Ran, u32, Option<Image>)> {
    let image = kept(alloc)?;
    let mut seat = holder(alloc, body, &meta_with(words), LockKind::Shared, &[])?;
    if image.standing.file_size as usize > seat.region().data_bytes().len() {
        return None;
    }
    let (result, made, image) = go_on(alloc, &mut seat, image);
    Some((result.ok()?, made, image))
}

#[test]
fn what_was_appended_is_loaded_and_nothing_else(rt: HostRuntime) -> Result<(), Fail> {
    let words = [(WORD_SIZE, 16), (WORD_CHECKSUM, CRC_OF_LONGER)];
    let came = go_on_in(rt.alloc(), &LONGER, &words);
    let (ran, made, image) = came.expect(&rt, "ample memory");
    assert_eq!(rt; (ran, made), (Ran::Holds, 5));
    let image = image.expect(&rt, "an image");
    let standing = Standing {
        sequence: 1,
        version: 3,
        flag: false,
        size: 16,
        checksum: CRC_OF_LONGER,
        tail: 0,
        file_size: 4096,
    };
    assert_eq!(rt; image.standing, standing);
    let value = image.map.value_at(b"k", 0).expect(&rt, "a value");
    assert_eq!(rt; value, b"\x01d".as_slice());
    assert_eq!(rt; image.map.len(), 1);
    Ok(())
}

#[test]
fn an_image_goes_on_exactly_where_nothing_but_appends_came(rt: HostRuntime) {
    let longer = [(WORD_SIZE, 16), (WORD_CHECKSUM, CRC_OF_LONGER)];
    let rows: [(&[(usize, u32)], _, _); 6] = [
        // nothing came: the word in which the kept bytes end is loaded again
        (&[(WORD_CHECKSUM, CRC)], Ran::Holds, 4),
        (&[longer[0], longer[1], (WORD_SEQUENCE, 2)], Ran::Fails, 3),
        (&[(WORD_SIZE, 10), longer[1]], Ran::Fails, 3),
        (&[longer[0], (WORD_CHECKSUM, CRC)], Ran::Fails, 5),
        // the bytes behind the kept ones are no items
        (
            &[(WORD_SIZE, 15), (WORD_CHECKSUM, 0x89f4_e490)],
            Ran::Fails,
            5,
        ),
        // the file is asked for its size, and is no longer
        (&[(WORD_SIZE, 4093), longer[1]], Ran::Fails, 4),
    ];
    for (words, ran, loads) in rows {
        let came = go_on_in(rt.alloc(), &LONGER, words);
        let (came, made, _) = came.expect(&rt, "ample memory");
        assert_eq!(rt; (came, made), (ran, loads));
    }
}
