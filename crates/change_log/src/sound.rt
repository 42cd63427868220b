// Whether changes may be applied.
ghost use Rattle.std.specs.Prelude.{Decides, All};
ghost use Rattle.expiring_map.specs.Map.{HasContent};
ghost use Rattle.change_log.specs.Acts.{IsSound, AreSound};

use crate::change::{Act, Change};
use expiring_map::Pair;

fn have_content(pairs: &[Pair]) -> bool
    ensures { Decides result (All HasContent pairs.now) }
{
    pairs.iter().all(|pair| !pair.key.as_slice().is_empty() && !pair.value.as_slice().is_empty())
}

fn is_sound(act: &Act) -> bool
    ensures { Decides result (IsSound act.now) }
{
    match act {
        Act::Put { key, value, .. } => !key.as_slice().is_empty() && !value.as_slice().is_empty(),
        Act::Enable { now, seconds } => now.checked_add(*seconds).is_some(),
        Act::Restored { pairs } => have_content(pairs.as_slice()),
        Act::Recovered { pairs } => have_content(pairs.as_slice()),
        _ => true,
    }
}

/// Whether these changes may be replayed: none writes an empty key or value, or a second
/// past 32 bits.
pub fn are_sound(changes: &[Change]) -> bool
    ensures { Decides result (AreSound changes.now) }
{
    changes.iter().all(|change| is_sound(&change.act))
}
