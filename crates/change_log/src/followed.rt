// Whether each write-back is followed by what it was made for.
ghost use Rattle.std.specs.Prelude.{◌≡◌, ◌≢◌, ◌+◌, ◌≤◌, ◌<◌, [], ℕ, true, All, Any, Some, IsTrue, length, slice_get, Decides};
ghost use Rattle.change_log.specs.Acts.{is_of_call};
ghost use Rattle.change_log.specs.History.{makes_change, MakesNone, IsNext, IsFollowed};
ghost use Rattle.change_log.specs.declared.change.Change.{Change as Made};

use crate::call::Answer;
use crate::change::{Act, Change};
use crate::made::{is_append, makes_change};

fn is_answered_at(answers: &[Answer], place: usize, now: u32) -> bool
    ensures { Decides result (Any (λ a. IsTrue (makes_change [] a) × (a.place ≡ place) × (a.now ≡ now)) answers.now) }
{
    answers.iter().any(|a| makes_change(a) && a.place as usize == place && a.now == now)
}

fn all_are_others(later: &[Change], maker: u32) -> bool
    ensures { Decides result (All (λ c. c.maker ≢ maker) later.now) }
{
    later.iter().all(|c| c.maker != maker)
}

fn makes_nothing(changes: &[Change], maker: u32, from: usize) -> bool
    requires { from ≤ length changes.now }
    ensures { Decides result (MakesNone (λ _. true) changes.now maker from) }
{
    all_are_others(&changes[from..], maker)
}

// The change at this place is the maker's, and the answered one or its last.
fn follows(changes: &[Change], answers: &[Answer], place: usize, maker: u32, now: u32) -> bool
    ensures { Decides result (IsNext changes.now answers.now place maker now) }
{
    let Some(next) = changes.get(place) else {
        return false;
    };
    if next.maker != maker {
        return false;
    }
    if is_append(&next.act) && is_answered_at(answers, place, now) {
        return true;
    }
    makes_nothing(changes, maker, place + 1)
}

fn is_followed(changes: &[Change], answers: &[Answer], place: usize, change: &Change) -> bool
    requires { place < length changes.now }
    ensures { Decides result (IsFollowed changes.now answers.now place change.now) }
{
    let Act::Pack { now } = &change.act else {
        return true;
    };
    if makes_nothing(changes, change.maker, place + 1) {
        return true;
    }
    follows(changes, answers, place + 1, change.maker, *now)
}

pub(crate) fn are_followed(changes: &[Change], answers: &[Answer]) -> bool
    ensures { Decides result ((i : ℕ) (c : Made) → slice_get changes.now i ≡ Some c → IsFollowed changes.now answers.now i c) }
{
    for (place, change) in changes.iter().enumerate() {
        if !is_followed(changes, answers, place, change) {
            return false;
        }
    }
    true
}
