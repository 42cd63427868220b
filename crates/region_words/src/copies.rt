// Copies of the changes that a journal has.
ghost use Rattle.std.specs.Prelude.{◌≡◌, ◌++◌, reverse, IfOk, OnOk};
ghost use Rattle.region_words.specs.Past.{change_of, changes_of};

use crate::event::{Event, Mark, What};
use change_log::{Act, Change, Changes};
use expiring_map::{Bytes, Memory, Pair, Pairs};
use std::alloc::Global;

/// The changes that are marked in these events, the first of them first.
pub fn changes_in(alloc: Global, journal: &[Event]) -> Result<Changes, Memory>
    ensures { IfOk result (λ changes. changes ≡ changes_of (reverse journal.now)) }
{
    let mut changes = Vec::new(alloc);
    for event in journal {
        push_change(alloc, &mut changes, &event.what)?;
    }
    Ok(Changes::of_vec(changes))
}

// Puts a copy of the change that an event commits behind the others.
fn push_change(alloc: Global, changes: &mut Vec<Change>, what: &What) -> Result<(), Memory>
    ensures { OnOk result (changes.new.items ≡ changes.old.items ++ change_of what.now) }
{
    if let What::Store {
        side: _,
        word: _,
        value: _,
        mark: Mark::Commit(change),
    } = what
    {
        changes.push(copy_of(alloc, change)?)?;
    }
    Ok(())
}

fn copy_of(alloc: Global, change: &Change) -> Result<Change, Memory>
    ensures { IfOk result (λ copy. copy ≡ change.now) }
{
    Ok(Change {
        maker: change.maker,
        act: act_of(alloc, &change.act)?,
    })
}

fn act_of(alloc: Global, act: &Act) -> Result<Act, Memory>
    ensures { IfOk result (λ copy. copy ≡ act.now) }
{
    match act {
        Act::Put { key, value, expiry } => Ok(Act::Put {
            key: Bytes::copy_of(alloc, key.as_slice())?,
            value: Bytes::copy_of(alloc, value.as_slice())?,
            expiry: *expiry,
        }),
        Act::Remove { key } => Ok(Act::Remove {
            key: Bytes::copy_of(alloc, key.as_slice())?,
        }),
        Act::Clear => Ok(Act::Clear),
        Act::Pack { now } => Ok(Act::Pack { now: *now }),
        Act::Enable { now, seconds } => Ok(Act::Enable {
            now: *now,
            seconds: *seconds,
        }),
        Act::Disable { now } => Ok(Act::Disable { now: *now }),
        Act::Restored { pairs } => Ok(Act::Restored {
            pairs: pairs_of(alloc, pairs.as_slice())?,
        }),
        Act::Discarded => Ok(Act::Discarded),
        Act::Recovered { pairs } => Ok(Act::Recovered {
            pairs: pairs_of(alloc, pairs.as_slice())?,
        }),
    }
}

fn pairs_of(alloc: Global, pairs: &[Pair]) -> Result<Pairs, Memory>
    ensures { IfOk result (λ copy. copy ≡ pairs.now) }
{
    let mut copies = Vec::new(alloc);
    for pair in pairs {
        copies.push(pair_of(alloc, pair)?)?;
    }
    Ok(Pairs::of_vec(copies))
}

fn pair_of(alloc: Global, pair: &Pair) -> Result<Pair, Memory>
    ensures { IfOk result (λ copy. copy ≡ pair.now) }
{
    Ok(Pair {
        key: Bytes::copy_of(alloc, pair.key.as_slice())?,
        value: Bytes::copy_of(alloc, pair.value.as_slice())?,
        expiry: pair.expiry,
    })
}
