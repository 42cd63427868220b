// Whether answered calls found what they answer at their places.
ghost use Rattle.std.specs.Prelude.{◌≡◌, ◌≤◌, All, None, IfOk, List, ℕ, Decides, length};
ghost use Rattle.std.specs.Option.{option_copied, option_map_or};
ghost use Rattle.change_log.specs.Acts.{AreSound};
ghost use Rattle.change_log.specs.History.{reply_in, IsPlaced};
ghost use Rattle.change_log.specs.declared.call.Reply.TheVariants as replies;

use crate::call::{Answer, Call, Reply};
use crate::change::Change;
use crate::effects::apply;
use expiring_map::{Bytes, ExpiringMap, Memory};
use std::alloc::Global;

fn are_same(keys: &[Bytes], others: &[Bytes]) -> bool
    ensures { Decides result (keys.now ≡ others.now) }
{
    if keys.len() != others.len() {
        return false;
    }
    for (i, key) in keys.iter().enumerate() {
        if key.as_slice() != others[i].as_slice() {
            return false;
        }
    }
    true
}

fn is_value(reply: &Reply, value: Option<&[u8]>) -> bool
    ensures { Decides result (reply.now ≡ option_map_or (λ v. replies.Value v) (option_copied value.entry) replies.None) }
{
    match (reply, value) {
        (Reply::Value(found), Some(value)) => found.as_slice() == value,
        (Reply::None, None) => true,
        _ => false,
    }
}

fn is_keys(reply: &Reply, keys: &[Bytes]) -> bool
    ensures { Decides result (reply.now ≡ replies.Keys keys.now) }
{
    match reply {
        Reply::Keys(found) => are_same(found.as_slice(), keys),
        _ => false,
    }
}

fn is_count(reply: &Reply, count: usize) -> bool
    ensures { Decides result (reply.now ≡ replies.Count count) }
{
    match reply {
        Reply::Count(found) => *found == count,
        _ => false,
    }
}

fn is_done(reply: &Reply) -> bool
    ensures { Decides result (reply.now ≡ replies.Done) }
{
    match reply {
        Reply::Done => true,
        _ => false,
    }
}

fn is_reply(map: &ExpiringMap, answer: &Answer) -> Result<bool, Memory>
    ensures { IfOk result (λ same. Decides same (answer.entry.now.reply ≡ reply_in map.now answer.entry.now.now answer.entry.now.call)) }
{
    match &answer.call {
        Call::Get { key } => Ok(is_value(&answer.reply, map.value_at(key.as_slice(), answer.now))),
        Call::Keys => {
            let keys = map.keys_at(answer.now)?;
            Ok(is_keys(&answer.reply, keys.as_slice()))
        }
        Call::Count => Ok(is_count(&answer.reply, map.count_at(answer.now))),
        _ => Ok(is_done(&answer.reply)),
    }
}

// The answered calls of this place found this map.
fn are_replies(map: &ExpiringMap, answers: &[Answer], place: usize) -> Result<bool, Memory>
    ensures { IfOk result (λ same. Decides same (All (λ a. a.place ≡ place → a.reply ≡ reply_in map.now a.now a.call) answers.now)) }
{
    for answer in answers {
        if answer.place as usize == place && !is_reply(map, answer)? {
            return Ok(false);
        }
    }
    Ok(true)
}

fn are_within(answers: &[Answer], count: usize) -> bool
    ensures { Decides result (All (λ a. (a.begun ≤ a.place) × (a.place ≤ a.ended) × (a.ended ≤ count)) answers.now) }
{
    answers.iter().all(|a| a.begun <= a.place && a.place <= a.ended && a.ended as usize <= count)
}

pub(crate) fn are_placed(
    alloc: Global,
    base: &ExpiringMap,
    changes: &[Change],
    answers: &[Answer],
) -> Result<bool, Memory>
    requires { AreSound changes.now }
    ensures { IfOk result (λ placed. Decides placed (All (IsPlaced base.now changes.now) answers.now)) }
{
    if !are_within(answers, changes.len()) {
        return Ok(false);
    }
    let mut map = base.copy()?;
    for (place, change) in changes.iter().enumerate() {
        if !are_replies(&map, answers, place)? {
            return Ok(false);
        }
        apply(alloc, &mut map, &change.act)?;
    }
    are_replies(&map, answers, changes.len())
}
