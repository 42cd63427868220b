// What changes do to a map.
ghost use Rattle.std.specs.Prelude.{◌≡◌, ◌+◌, ◌^◌, ◌<◌, IfOk, All};
ghost use Rattle.std.specs.Result.{OnOk};
ghost use Rattle.expiring_map.specs.Map.{HasContent, map_of_pairs};
ghost use Rattle.change_log.specs.Acts.{expiry_after, applied, replay, IsSound, AreSound};

use crate::change::{Act, Change};
use expiring_map::{Bytes, ExpiringMap, Memory, Pair};
use std::alloc::Global;

/// The map after these changes, the first of them first.
pub fn replay(alloc: Global, base: &ExpiringMap, changes: &[Change]) -> Result<ExpiringMap, Memory>
    requires { AreSound changes.now }
    ensures { IfOk result (λ map. map ≡ replay base.now changes.now) }
{
    let mut map = base.copy()?;
    for change in changes {
        apply(alloc, &mut map, &change.act)?;
    }
    Ok(map)
}

/// Changes the map. After `Memory` it may be any map.
pub fn apply(alloc: Global, map: &mut ExpiringMap, act: &Act) -> Result<(), Memory>
    requires { IsSound act.now }
    ensures { OnOk result (map.new ≡ applied map.old act.now) }
{
    match act {
        Act::Put { key, value, expiry } => {
            map.put(Pair {
                key: Bytes::copy_of(alloc, key.as_slice())?,
                value: Bytes::copy_of(alloc, value.as_slice())?,
                expiry: *expiry,
            })?;
        }
        Act::Remove { key } => {
            map.take_out(key.as_slice());
        }
        Act::Pack { now } => {
            map.drop_expired(*now);
        }
        Act::Enable { now, seconds } => map.set_expiry(expiry_after(*now, *seconds)),
        Act::Disable { now } => {
            map.drop_expired(*now);
            map.set_expiry(0);
        }
        Act::Restored { pairs } | Act::Recovered { pairs } => {
            *map = map_of_pairs(alloc, pairs.as_slice())?;
        }
        Act::Clear | Act::Discarded => *map = ExpiringMap::new(alloc),
    }
    Ok(())
}

fn expiry_after(now: u32, seconds: u32) -> u32
    requires { now + seconds < 2 ^ 32 }
    ensures { result ≡ expiry_after now seconds }
{
    if seconds == 0 { 0 } else { now + seconds }
}

fn map_of_pairs(alloc: Global, pairs: &[Pair]) -> Result<ExpiringMap, Memory>
    requires { All HasContent pairs.now }
    ensures { IfOk result (λ map. map ≡ map_of_pairs pairs.now) }
{
    let mut map = ExpiringMap::new(alloc);
    for pair in pairs {
        map.put(Pair {
            key: Bytes::copy_of(alloc, pair.key.as_slice())?,
            value: Bytes::copy_of(alloc, pair.value.as_slice())?,
            expiry: pair.expiry,
        })?;
    }
    Ok(map)
}
