// Whether answered calls made their changes.
ghost use Rattle.std.specs.Prelude.{◌≡◌, [], All, Some, Decides};
ghost use Rattle.std.specs.FinMap as fin;
ghost use Rattle.change_log.specs.Acts.{act_of, is_of_call, is_append, expiry_after};
ghost use Rattle.change_log.specs.History.{makes_change, IsMade};

use crate::call::{Answer, Call};
use crate::change::{Act, Change};

pub(crate) fn makes_change(answer: &Answer) -> bool
    ensures { result ≡ makes_change [] answer.entry.now }
{
    match &answer.call {
        Call::Put { .. }
        | Call::Remove { .. }
        | Call::Clear
        | Call::Enable { .. }
        | Call::Disable => true,
        _ => false,
    }
}

pub(crate) fn is_of_call(act: &Act) -> bool
    ensures { result ≡ is_of_call act.now }
{
    match act {
        Act::Put { .. }
        | Act::Remove { .. }
        | Act::Clear
        | Act::Enable { .. }
        | Act::Disable { .. } => true,
        _ => false,
    }
}

pub(crate) fn is_append(act: &Act) -> bool
    ensures { result ≡ is_append act.now }
{
    match act {
        Act::Put { .. } | Act::Remove { .. } => true,
        _ => false,
    }
}

// The second needs more than 32 bits for some calls, and then no change has it.
fn is_expiry_after(expiry: u32, now: u32, seconds: u32) -> bool
    ensures { Decides result (expiry ≡ expiry_after now seconds) }
{
    let after = if seconds == 0 {
        0
    } else {
        u64::from(now) + u64::from(seconds)
    };
    u64::from(expiry) == after
}

fn is_act_of(act: &Act, call: &Call, now: u32) -> bool
    ensures { Decides result (act_of call.now now ≡ Some act.now) }
{
    match (call, act) {
        (
            Call::Put {
                key,
                value,
                seconds,
            },
            Act::Put {
                key: k,
                value: v,
                expiry,
            },
        ) => {
            key.as_slice() == k.as_slice()
                && value.as_slice() == v.as_slice()
                && is_expiry_after(*expiry, now, *seconds)
        }
        (Call::Remove { key }, Act::Remove { key: k }) => key.as_slice() == k.as_slice(),
        (Call::Clear, Act::Clear) => true,
        (
            Call::Enable { seconds },
            Act::Enable {
                now: at,
                seconds: lasting,
            },
        ) => { now == *at && *seconds == *lasting }
        (Call::Disable, Act::Disable { now: at }) => now == *at,
        _ => false,
    }
}

fn is_made(changes: &[Change], answer: &Answer) -> bool
    ensures { Decides result (IsMade fin.empty changes.now answer.entry.now) }
{
    if !makes_change(answer) {
        return true;
    }
    if answer.ended <= answer.place {
        return false;
    }
    match changes.get(answer.place as usize) {
        Some(change) => change.maker == answer.who
            && is_act_of(&change.act, &answer.call, answer.now),
        None => false,
    }
}

pub(crate) fn are_made(changes: &[Change], answers: &[Answer]) -> bool
    ensures { Decides result (All (IsMade fin.empty changes.now) answers.now) }
{
    answers.iter().all(|answer| is_made(changes, answer))
}
