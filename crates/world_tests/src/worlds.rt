// Worlds to test with, and what they answer.
ghost use Rattle.std.specs.Prelude.{◌≡◌, [], IfOk, IfSome};

use change_log::Call;
use expiring_map::{Bytes, Memory};
use handlers::{Handler, Steady, Strategy};
use region_words::{LocalRegion, shown};
use std::alloc::{AllocError, Global};
use std::mem;
use test_support::{BODY, META};
use world::{Moved, World};

// More steps than a call on a small store has.
const MOST_STEPS: u32 = 8000;

// A handler that was asked and told nothing.
pub(crate) fn handler(alloc: Global) -> Result<Box<dyn Handler + Send>, AllocError>
    ensures { IfOk result (λ h. (told h ≡ []) × (changes_told h ≡ [])) }
{
    Ok(Box::new(alloc, Steady::new(alloc, Strategy::Leave))?)
}

// A world over these files, without openers. The calls of the listed numbers fail.
fn world_over(alloc: Global, body: &[u8], meta: &[u8], fails: &[u64]) -> Option<World>
    ensures { IfSome result (λ w. w.core.openers ≡ []) }
{
    let body = body.to_vec(alloc).ok()?;
    let meta = meta.to_vec(alloc).ok()?;
    let mut region = LocalRegion::new(alloc, body, meta).ok()?;
    shown(region.data_bytes(), region.meta_bytes()).ok()?;
    region.fail_at(fails.to_vec(alloc).ok()?);
    Some(World::new(alloc, region))
}

// The value of the one pair in the map that is noted at the start, where memory is ample.
pub(crate) fn noted_value(alloc: Global) -> Option<Vec<u8>> {
    let mut world = world_over(alloc, &BODY, &META, &[])?;
    let value = match world.note_base() {
        Ok(()) => world.base().value_at(b"k", 100)?.to_vec(alloc).ok(),
        Err(_) => None,
    };
    mem::drop(world);
    value
}

// So many openers more.
fn with_openers(alloc: Global, mut world: World, count: u32) -> Option<World> {
    for _ in 0..count {
        world.open(handler(alloc).ok()?).ok()?;
    }
    Some(world)
}

// A fresh store with so many openers.
pub(crate) fn fresh(alloc: Global, count: u32) -> Option<World> {
    with_openers(alloc, world_over(alloc, b"", b"", &[])?, count)
}

// The store with one pair and so many openers. The calls of the listed numbers fail.
pub(crate) fn stored(alloc: Global, fails: &[u64], count: u32) -> Option<World> {
    with_openers(alloc, world_over(alloc, &BODY, &META, fails)?, count)
}

pub(crate) fn get(alloc: Global) -> Result<Call, Memory> {
    Ok(Call::Get {
        key: Bytes::copy_of(alloc, b"k")?,
    })
}

pub(crate) fn put(alloc: Global, key: &[u8], value: &[u8]) -> Result<Call, Memory> {
    Ok(Call::Put {
        key: Bytes::copy_of(alloc, key)?,
        value: Bytes::copy_of(alloc, value)?,
        seconds: 0,
    })
}

// The steps of the call that runs, to its end or to the first that waits.
pub(crate) fn finish(world: &mut World, who: u32) -> Moved {
    for _ in 0..MOST_STEPS {
        let moved = world.step(who);
        match moved {
            Moved::Going => {}
            _ => return moved,
        }
    }
    Moved::Going
}

// Who answered, when the call began, where it stands and when it was answered, and the stores and locks that it took.
pub(crate) fn numbers(world: &World, place: usize) -> Option<(u32, u32, u32, u32, u32, u32)> {
    let answer = world.answers().get(place)?;
    Some((
        answer.who,
        answer.begun,
        answer.place,
        answer.ended,
        answer.stores,
        answer.locks,
    ))
}

// The header, which is the payload's size, the number of changes, and the bytes of the data file.
pub(crate) fn sizes(alloc: Global, world: &World) -> Option<(u32, usize, usize)> {
    let region = world.region();
    let changes = region.changes(alloc).ok()?;
    match region.data_bytes() {
        [a, b, c, d, rest @ ..] => Some((
            u32::from_le_bytes([*a, *b, *c, *d]),
            changes.as_slice().len(),
            4 + rest.len(),
        )),
        _ => None,
    }
}
