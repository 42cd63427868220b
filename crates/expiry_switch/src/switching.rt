// The start of a switch.
ghost use Rattle.std.specs.Prelude.{◌≡◌, ◌<◌, ◌≤◌, ◌^◌, ◌+◌, None, Some, IfErr, IfOk, IfSome, IsNone, OnOk, not};
ghost use Rattle.kv_pairs.specs.Growth.{IsFileSize};
ghost use Rattle.kv_pairs.specs.Fits.{FitsIn};
ghost use Rattle.change_log.specs.Acts.{applied, expiry_after};
ghost use Rattle.change_log.specs.declared.change.Act.TheVariants as act;
ghost use Rattle.expiry_switch.specs.Switches.{CanSwitch, IsStop, disable_refusal, disabling, enable_refusal, enabling, pack_refusal, switching, switching_to};

use crate::parts::{closing, opening, switched};
use change_log::{Act, Change};
use expiring_map::{ExpiringMap, Memory};
use kv_pairs::{grown_size, pack, packed_size};
use region_words::{ListedEvents, PayloadWords, RowMaker, Standing};
use std::alloc::Global;
use thiserror::Error;

/// Why the expiry is not switched. Nothing was stored.
#[derive(Clone, Copy, Debug, PartialEq, Eq, Error)]
pub enum SwitchStop {
    #[error("the pairs expire already")]
    AlreadyOn,
    #[error("the pairs don't expire")]
    AlreadyOff,
    /// The pairs would expire after second 2^32 - 1.
    #[error("the expiry is out of range")]
    ExpiryRange,
    /// The greatest data file, of 2^26 bytes, is smaller than what is needed, in bytes.
    #[error("the store is full: {need} bytes are needed")]
    Full { need: u64 },
    /// The sequence is 2^32 - 1 and can't be raised.
    #[error("the sequence is at its end")]
    SequenceEnd,
    #[error("out of memory")]
    Memory,
}

/// The stores that switch the expiry on at a moment, in seconds, and the map that they leave: each pair is to live for so many
/// seconds more, or for ever where that is 0. None is made yet. The map is the one that stands; where this is refused it is given
/// up. `Memory` comes here or not at all.
pub fn start_enable(
    alloc: Global,
    standing: &Standing,
    map: ExpiringMap,
    who: u32,
    now: u32,
    seconds: u32,
) -> Result<(RowMaker, ExpiringMap), SwitchStop>
    requires { CanSwitch standing.now map }
    ensures row { IfOk result (λ made. made.0 ≡ enabling standing.now map who now seconds) }
    ensures map { IfOk result (λ made. made.1 ≡ applied map (act.Enable now seconds)) }
    ensures ok { OnOk result (enable_refusal standing.now map now seconds ≡ None) }
    ensures err { IfErr result (λ stop. IsStop (enable_refusal standing.now map now seconds) stop) }
{
    if standing.flag {
        return Err(SwitchStop::AlreadyOn);
    }
    let Some(expiry) = expiry_after(now, seconds) else {
        return Err(SwitchStop::ExpiryRange);
    };
    let mut map = map;
    map.set_expiry(expiry);
    let act = Act::Enable { now, seconds };
    switch_to(alloc, standing, map, Change { maker: who, act })
}

/// The stores that switch the expiry off at a moment, in seconds, and the map that they leave: what has expired is dropped, and the
/// other pairs live for ever. None is made yet. The map is the one that stands; where this is refused it is given up. `Memory`
/// comes here or not at all.
pub fn start_disable(
    alloc: Global,
    standing: &Standing,
    map: ExpiringMap,
    who: u32,
    now: u32,
) -> Result<(RowMaker, ExpiringMap), SwitchStop>
    requires { CanSwitch standing.now map }
    ensures row { IfOk result (λ made. made.0 ≡ disabling standing.now map who now) }
    ensures map { IfOk result (λ made. made.1 ≡ applied map (act.Disable now)) }
    ensures ok { OnOk result (disable_refusal standing.now map now ≡ None) }
    ensures err { IfErr result (λ stop. IsStop (disable_refusal standing.now map now) stop) }
{
    if !standing.flag {
        return Err(SwitchStop::AlreadyOff);
    }
    let mut map = map;
    map.drop_expired(now);
    map.set_expiry(0);
    let act = Act::Disable { now };
    switch_to(alloc, standing, map, Change { maker: who, act })
}

// The second at which pairs expire that live for so many seconds more: 0, for never, where that is 0.
fn expiry_after(now: u32, seconds: u32) -> Option<u32>
    ensures some { IfSome result (λ expiry. (now + seconds < 2 ^ 32) × (expiry ≡ expiry_after now seconds)) }
    ensures none { IsNone result → 2 ^ 32 ≤ now + seconds }
{
    let expiry = now.checked_add(seconds)?;
    if seconds == 0 {
        return Some(0);
    }
    Some(expiry)
}

// The map, which the change leaves, is written under the other flag.
fn switch_to(
    alloc: Global,
    standing: &Standing,
    map: ExpiringMap,
    change: Change,
) -> Result<(RowMaker, ExpiringMap), SwitchStop>
    requires file { IsFileSize standing.now.file_size }
    requires map { FitsIn (not standing.now.flag) map (2 ^ 30) }
    ensures row { IfOk result (λ made. made.0 ≡ switching standing.now (not standing.now.flag) map change) }
    ensures map { IfOk result (λ made. made.1 ≡ map) }
    ensures ok { OnOk result (pack_refusal standing.now (not standing.now.flag) map ≡ None) }
    ensures err { IfErr result (λ stop. IsStop (pack_refusal standing.now (not standing.now.flag) map) stop) }
{
    let packed = packed_size(!standing.flag, &map);
    let Some(size) = grown_size(packed, 0, map.len() as u64, standing.file_size) else {
        return Err(SwitchStop::Full { need: 4 + packed });
    };
    if standing.sequence == u32::MAX {
        return Err(SwitchStop::SequenceEnd);
    }
    match maker_of(alloc, standing, &map, change, size) {
        Ok(row) => Ok((row, map)),
        Err(Memory) => Err(SwitchStop::Memory),
    }
}

// The events of a switch in a file of this size or more.
fn maker_of(
    alloc: Global,
    standing: &Standing,
    map: &ExpiringMap,
    change: Change,
    size: u32,
) -> Result<RowMaker, Memory>
    requires map { FitsIn (not standing.now.flag) map.now (2 ^ 30) }
    requires sequence { standing.now.sequence < 0xffffffff }
    ensures { IfOk result (λ made. made ≡ switching_to standing.now (not standing.now.flag) (Some size) map.now change) }
{
    let mut payload = Vec::new(alloc);
    pack(!standing.flag, map, &mut payload)?;
    let after = switched(standing, &payload, size);
    let before = ListedEvents::new(opening(alloc, standing, size)?);
    let behind = ListedEvents::new(closing(alloc, &after, change)?);
    let room = if standing.file_size < size { size } else { 0 };
    Ok(RowMaker::new(before, PayloadWords::new(1, payload), behind, room, after))
}
