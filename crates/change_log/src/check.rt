// Whether answers and changes are one legal history.
ghost use Rattle.std.specs.Prelude.{◌≡◌, IfOk, Decides};
ghost use Rattle.change_log.specs.Acts.{AreSound};
ghost use Rattle.change_log.specs.History.{Legal};

use crate::call::Answer;
use crate::change::Change;
use crate::followed::are_followed;
use crate::in_order::are_in_order;
use crate::made::are_made;
use crate::owned::are_owned;
use crate::placed::are_placed;
use expiring_map::{ExpiringMap, Memory};
use std::alloc::Global;

/// Whether the answers are a legal history of the changes of a map.
pub fn check_legal(
    alloc: Global,
    base: &ExpiringMap,
    changes: &[Change],
    answers: &[Answer],
) -> Result<bool, Memory>
    requires { AreSound changes.now }
    ensures { IfOk result (λ legal. Decides legal (Legal base.now changes.now answers.now)) }
{
    if !are_in_order(answers) {
        return Ok(false);
    }
    if !are_made(changes, answers) {
        return Ok(false);
    }
    if !are_owned(changes, answers) {
        return Ok(false);
    }
    if !are_followed(changes, answers) {
        return Ok(false);
    }
    are_placed(alloc, base, changes, answers)
}
