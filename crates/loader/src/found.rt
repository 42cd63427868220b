// The image that is shown, with its map.
ghost use Rattle.std.specs.Prelude.{◌≡◌, ◌<◌, ◌≤◌, length, [], IfOk, IfSome};
ghost use Rattle.std.specs.FinMap as fin;
ghost use Rattle.kv_pairs.specs.Growth.{largest};
ghost use Rattle.region_words.specs.Region.{Region, size_of};
ghost use Rattle.loader.specs.FirstWords.{AreFirst, HasWords, IsWritten, standing_in};
ghost use Rattle.loader.specs.Candidates.{IsFront, ShowsSize};
ghost use Rattle.loader.specs.Outlooks.{IsFoundIn, IsLoaded, checksum_of};

use crate::first_words::FirstWords;
use crate::loaded::Image;
use expiring_map::{ExpiringMap, Memory};
use kv_pairs::read_map;
use meta_record::{Damage, Record, Shown};
use region_words::size_of;
use std::alloc::Global;

/// What a region shows, and its image.
#[derive(Drop)]
pub struct Found {
    pub shown: Shown,
    pub image: Image,
}

/// The image that is shown by its checksum; where it has no map, damage is shown.
pub fn find(
    alloc: Global,
    first: &FirstWords,
    payload: &[u8],
    shown: Shown,
) -> Result<Found, Memory>
    requires complete { first.now.made ≡ 10 }
    requires small { length payload.now ≤ largest }
    requires within { IfSome (size_of shown) (λ size. size ≤ length payload.now) }
    requires written { IfSome (size_of shown) (λ size. 0 < size → IsWritten first.now) }
    ensures loaded { IfOk result (IsLoaded first.now payload.now) }
    ensures told { IfOk result (λ found. (r : Region) → AreFirst first.now r → IsFront payload.now r → ShowsSize r shown → IsFoundIn found r) }
{
    let Some(size) = size_of(shown) else {
        return Ok(without_image(alloc, first, shown));
    };
    let rec = first.record();
    let payload = &payload[..size as usize];
    let Some(map) = read_map(alloc, rec.flags == 1, payload)? else {
        return Ok(without_image(alloc, first, Shown::Damaged(Damage::Content)));
    };
    let standing = first.standing(payload, checksum_of(&rec, shown));
    Ok(Found {
        shown,
        image: Image { standing, map },
    })
}

// A damaged region shows no image.
fn without_image(alloc: Global, first: &FirstWords, shown: Shown) -> Found
    ensures found { result ≡ record { shown = shown; image = record { standing = standing_in first.now [] 0; map = fin.empty } } }
    ensures words { HasWords result.image.standing }
{
    Found {
        shown,
        image: Image {
            standing: first.standing(&[], 0),
            map: ExpiringMap::new(alloc),
        },
    }
}

// The checksum by which an image is shown.
fn checksum_of(rec: &Record, shown: Shown) -> u32
    ensures { result ≡ checksum_of rec.now shown }
{
    match shown {
        Shown::Whole(_) | Shown::Header(_) => rec.checksum,
        Shown::Last(_) => rec.last_checksum,
        Shown::Damaged(_) => 0,
    }
}
