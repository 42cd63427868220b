// Whether each change of a call is answered, but for an opener's last.
ghost use Rattle.std.specs.Prelude.{◌≡◌, ◌+◌, ◌≤◌, ◌<◌, [], ℕ, All, Some, false, length, slice_get, Decides};
ghost use Rattle.change_log.specs.Acts.{is_of_call};
ghost use Rattle.change_log.specs.History.{MakesNone, IsAnswered, IsLeftOpen, IsOwned};
ghost use Rattle.change_log.specs.declared.change.Change.{Change as Made};

use crate::call::Answer;
use crate::change::Change;
use crate::made::{is_of_call, makes_change};

fn is_answered(answers: &[Answer], place: usize) -> bool
    ensures { Decides result (IsAnswered [] answers.now place) }
{
    answers
        .iter()
        .any(|a| makes_change(a) && a.place as usize == place)
}

fn is_left_open(answers: &[Answer], maker: u32, place: usize) -> bool
    ensures { Decides result (IsLeftOpen answers.now maker place) }
{
    answers
        .iter()
        .all(|a| a.who != maker || a.ended as usize <= place)
}

fn all_make_no_call(later: &[Change], maker: u32) -> bool
    ensures { Decides result (All (λ c. c.maker ≡ maker → is_of_call c.act ≡ false) later.now) }
{
    later
        .iter()
        .all(|c| c.maker != maker || !is_of_call(&c.act))
}

fn makes_no_call(changes: &[Change], maker: u32, from: usize) -> bool
    requires { from ≤ length changes.now }
    ensures { Decides result (MakesNone is_of_call changes.now maker from) }
{
    all_make_no_call(&changes[from..], maker)
}

fn is_owned(changes: &[Change], answers: &[Answer], place: usize, change: &Change) -> bool
    requires { place < length changes.now }
    ensures { Decides result (IsOwned changes.now answers.now place change.now) }
{
    if !is_of_call(&change.act) {
        return true;
    }
    if is_answered(answers, place) {
        return true;
    }
    if !makes_no_call(changes, change.maker, place + 1) {
        return false;
    }
    is_left_open(answers, change.maker, place)
}

pub(crate) fn are_owned(changes: &[Change], answers: &[Answer]) -> bool
    ensures { Decides result ((i : ℕ) (c : Made) → slice_get changes.now i ≡ Some c → IsOwned changes.now answers.now i c) }
{
    for (place, change) in changes.iter().enumerate() {
        if !is_owned(changes, answers, place, change) {
            return false;
        }
    }
    true
}
