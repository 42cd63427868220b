// What a write is to store.
ghost use Rattle.std.specs.Prelude.{◌≡◌, ◌≤◌, ◌^◌, IfErr, IfOk, false, length};
ghost use Rattle.change_log.specs.Acts.{applied};
ghost use Rattle.region_words.specs.Rows.{item_of, IsAppendable};
ghost use Rattle.appender.specs.Appends.{CanAppend, appending};
ghost use Rattle.opener.specs.Counted.{counted};
ghost use Rattle.loader.specs.PartialLoads.{IsSoundImage, IsSoundStanding};
ghost use Rattle.opener.specs.Plans.{CanWrite, IsPlanOf, IsItemPlan, IsRoomPlan, IsClearPlan, IsEnablePlan, IsDisablePlan, IsNotPlanned, IsNoItemPlan, IsNoRoomPlan, IsNoClearPlan, IsNoEnablePlan, IsNoDisablePlan, expiry_of, fits_behind, events_in, room_in, stop_of, stop_of_switch};
ghost use Rattle.opener.specs.declared.calls.Stop.TheVariants as why;

use crate::calls::Stop;
use appender::start_append;
use change_log::{Act, Call, Change, apply};
use expiring_map::{Bytes, ExpiringMap, Memory};
use expiry_switch::{SwitchStop, start_disable, start_enable};
use kv_pairs::item_size;
use loader::Image;
use region_words::{RowMaker, Standing};
use std::alloc::Global;
use std::mem;
use write_back::{RewriteStop, start_rewrite};

/// What a write is to store, and the map that it leaves.
#[derive(Drop)]
pub enum Plan {
    /// An item is appended.
    Append {
        appending: RowMaker,
        map: ExpiringMap,
    },
    /// The pairs are written anew, and then an item is appended, where there is one.
    Rewrite {
        rewriting: RowMaker,
        then: Option<RowMaker>,
        map: ExpiringMap,
    },
}

impl Plan {
    /// How many events are to come.
    pub fn events(&self) -> u32
        ensures { result ≡ counted (events_in self.now) }
    {
        match self {
            Plan::Append { appending, .. } => appending.events(),
            Plan::Rewrite {
                rewriting,
                then: Some(appending),
                ..
            } => rewriting.events().saturating_add(appending.events()),
            Plan::Rewrite {
                rewriting,
                then: None,
                ..
            } => rewriting.events(),
        }
    }

    /// The size to which the data file grows, 0 where it doesn't.
    pub fn room(&self) -> u32
        ensures { result ≡ room_in self.now }
    {
        match self {
            Plan::Append { .. } => 0,
            Plan::Rewrite { rewriting, .. } => rewriting.room(),
        }
    }
}

/// What a write of this opener stores at a moment where this image stands.
pub fn plan_of(alloc: Global, who: u32, call: &Call, now: u32, image: Image) -> Result<Plan, Stop>
    requires asked { CanWrite call.now }
    requires image { IsSoundImage image }
    ensures ok { IfOk result (λ plan. IsPlanOf who call.now now image plan) }
    ensures err { IfErr result (λ stop. IsNotPlanned call.now now image stop) }
{
    let flag = image.standing.flag;
    match call {
        Call::Put {
            key,
            value,
            seconds,
        } => {
            let expiry = expiry_of(flag, now, *seconds)?;
            let act = put_of(alloc, key.as_slice(), value.as_slice(), expiry)?;
            plan_item(alloc, Change { maker: who, act }, now, image)
        }
        Call::Remove { key } => {
            let key = Bytes::copy_of(alloc, key.as_slice())?;
            let act = Act::Remove { key };
            plan_item(alloc, Change { maker: who, act }, now, image)
        }
        Call::Enable { seconds } => plan_enable(alloc, who, now, *seconds, image),
        Call::Disable => plan_disable(alloc, who, now, image),
        _ => plan_clear(alloc, who, &image.standing),
    }
}

// The second at which a pair expires that is put now.
fn expiry_of(flag: bool, now: u32, seconds: u32) -> Result<u32, Stop>
    ensures { result ≡ expiry_of flag now seconds }
{
    if seconds == 0 {
        Ok(0)
    } else if !flag {
        Err(Stop::ExpiryOff)
    } else {
        now.checked_add(seconds).ok_or(Stop::ExpiryRange)
    }
}

// The put of copies.
fn put_of(alloc: Global, key: &[u8], value: &[u8], expiry: u32) -> Result<Act, Memory>
    ensures { IfOk result (λ act. act ≡ Act.Put key.now value.now expiry) }
{
    Ok(Act::Put {
        key: Bytes::copy_of(alloc, key)?,
        value: Bytes::copy_of(alloc, value)?,
        expiry,
    })
}

// An item is appended where it fits behind a payload that isn't empty. Else the live pairs are written anew before it.
fn plan_item(alloc: Global, change: Change, now: u32, image: Image) -> Result<Plan, Stop>
    requires appendable { IsAppendable image.standing.flag change.act }
    requires image { IsSoundImage image }
    ensures ok { IfOk result (λ plan. IsItemPlan change now image plan) }
    ensures err { IfErr result (λ stop. IsNoItemPlan change now image stop) }
{
    let standing = image.standing;
    let need = size_of_item(standing.flag, &change.act);
    if fits_behind(&standing, need) {
        let (appending, map) = append_to(alloc, &standing, image.map, change)?;
        return Ok(Plan::Append { appending, map });
    }
    plan_room(alloc, change, now, need, image)
}

// The live pairs anew, and the item behind them.
fn plan_room(alloc: Global, change: Change, now: u32, need: u64, image: Image) -> Result<Plan, Stop>
    requires appendable { IsAppendable image.standing.flag change.act }
    requires image { IsSoundImage image }
    requires need { need ≡ length (item_of image.standing.flag change.act) }
    requires most { need ≤ 2 ^ 30 }
    requires short { fits_behind image.standing need ≡ false }
    ensures ok { IfOk result (λ plan. IsRoomPlan change now image plan) }
    ensures err { IfErr result (λ stop. IsNoRoomPlan change now image stop) }
{
    let mut map = image.map;
    map.drop_expired(now);
    let pack = Change {
        maker: change.maker,
        act: Act::Pack { now },
    };
    let rewriting = start_rewrite(alloc, &image.standing, &map, pack, need)?;
    let (appending, map) = append_to(alloc, &rewriting.standing(), map, change)?;
    Ok(Plan::Rewrite {
        rewriting,
        then: Some(appending),
        map,
    })
}

// An empty map anew.
fn plan_clear(alloc: Global, who: u32, standing: &Standing) -> Result<Plan, Stop>
    requires { IsSoundStanding standing.now }
    ensures ok { IfOk result (λ plan. IsClearPlan who standing.now plan) }
    ensures err { IfErr result (λ stop. IsNoClearPlan standing.now stop) }
{
    let map = ExpiringMap::new(alloc);
    let change = Change {
        maker: who,
        act: Act::Clear,
    };
    let rewriting = start_rewrite(alloc, standing, &map, change, 0)?;
    Ok(Plan::Rewrite {
        rewriting,
        then: None,
        map,
    })
}

// The pairs anew, to expire from now on.
fn plan_enable(alloc: Global, who: u32, now: u32, seconds: u32, image: Image) -> Result<Plan, Stop>
    requires { IsSoundImage image }
    ensures ok { IfOk result (λ plan. IsEnablePlan who now seconds image plan) }
    ensures err { IfErr result (λ stop. IsNoEnablePlan now seconds image stop) }
{
    let standing = image.standing;
    let (rewriting, map) = start_enable(alloc, &standing, image.map, who, now, seconds)?;
    Ok(Plan::Rewrite {
        rewriting,
        then: None,
        map,
    })
}

// The live pairs anew, to live for ever.
fn plan_disable(alloc: Global, who: u32, now: u32, image: Image) -> Result<Plan, Stop>
    requires { IsSoundImage image }
    ensures ok { IfOk result (λ plan. IsDisablePlan who now image plan) }
    ensures err { IfErr result (λ stop. IsNoDisablePlan now image stop) }
{
    let standing = image.standing;
    let (rewriting, map) = start_disable(alloc, &standing, image.map, who, now)?;
    Ok(Plan::Rewrite {
        rewriting,
        then: None,
        map,
    })
}

// The append of a change, and the map that it leaves.
fn append_to(
    alloc: Global,
    standing: &Standing,
    map: ExpiringMap,
    change: Change,
) -> Result<(RowMaker, ExpiringMap), Memory>
    requires { CanAppend standing.now change }
    ensures { IfOk result (λ p. (p.0 ≡ appending standing.now change) × (p.1 ≡ applied map change.act)) }
{
    let mut map = map;
    match apply(alloc, &mut map, &change.act) {
        Ok(()) => {}
        Err(memory) => {
            mem::drop(map);
            mem::drop(change);
            return Err(memory);
        }
    }
    match start_append(alloc, standing, change) {
        Ok(appending) => Ok((appending, map)),
        Err(memory) => {
            mem::drop(map);
            Err(memory)
        }
    }
}

// The bytes of a change's item.
fn size_of_item(flag: bool, act: &Act) -> u64
    requires { IsAppendable flag act.now }
    ensures size { result ≡ length (item_of flag act.now) }
    ensures most { result ≤ 2 ^ 30 }
{
    match act {
        Act::Put { key, value, .. } => item_size(
            flag,
            key.as_slice().len() as u32,
            value.as_slice().len() as u32,
        ),
        Act::Remove { key } => item_size(flag, key.as_slice().len() as u32, 0),
        _ => 0,
    }
}

// Whether so many bytes fit the file behind a payload that isn't empty.
fn fits_behind(standing: &Standing, need: u64) -> bool
    requires { need ≤ 2 ^ 32 }
    ensures { result ≡ fits_behind standing.now need }
{
    standing.size > 0 && 4 + u64::from(standing.size) + need <= u64::from(standing.file_size)
}

impl From<Memory> for Stop {
    ghost from_gives = { λ _ stop. stop ≡ why.Memory };

    fn from(_: Memory) -> Stop {
        Stop::Memory
    }
}

impl From<RewriteStop> for Stop {
    ghost from_gives = { λ from stop. stop ≡ stop_of from };

    fn from(stop: RewriteStop) -> Stop {
        match stop {
            RewriteStop::Full { need } => Stop::Full { need },
            RewriteStop::SequenceEnd => Stop::SequenceEnd,
            RewriteStop::Memory => Stop::Memory,
        }
    }
}

impl From<SwitchStop> for Stop {
    ghost from_gives = { λ from stop. stop ≡ stop_of_switch from };

    fn from(stop: SwitchStop) -> Stop {
        match stop {
            SwitchStop::AlreadyOn => Stop::AlreadyOn,
            SwitchStop::AlreadyOff => Stop::AlreadyOff,
            SwitchStop::ExpiryRange => Stop::ExpiryRange,
            SwitchStop::Full { need } => Stop::Full { need },
            SwitchStop::SequenceEnd => Stop::SequenceEnd,
            SwitchStop::Memory => Stop::Memory,
        }
    }
}
