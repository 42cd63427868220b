// A world without the handlers of its openers: a region in memory, the openers that were opened in it, and what they answered.
ghost use Rattle.std.specs.Prelude.{◌≡◌, ◌↔◌, [], None, IfErr, IfOk, IsTrue, OnErr, OnOk, false, length, replicate, true};
ghost use Rattle.opener.specs.Opener.{stop_found};
ghost use Rattle.opener.specs.State.{OpenerState};
ghost use Rattle.region_words.specs.Local.{no_account};
ghost use Rattle.region_words.specs.Region.{IsAccepted, base};
ghost use Rattle.world.specs.World.{IsLiving, IsSound, Lives};
ghost use Rattle.world.specs.Moves.{Begun, Dies, HoldsAreKept, IsNotBegun, IsNotOpened, IsOneHistory, Moves, Opens, RestsWithItsHistory, RestsWithoutDeath};

use crate::base::start_map;
use crate::moves::Moved;
use crate::openers::{MOST_OPENERS, begin_at, die_at, open_one, place_of, step_at};
use crate::stops::{OpenStop, WorldStop};
use change_log::{Answer, Call};
use expiring_map::{ExpiringMap, Memory};
use opener::{OpenerCore, Stop};
use region_words::{LocalRegion, LocalSeat};
use std::alloc::Global;
use std::marker::Model;
use std::mem;

/// A world without the handlers of its openers, as one value.
#[derive(Drop)]
pub struct WorldCore {
    alloc: Global,
    seat: LocalSeat,
    openers: Vec<OpenerCore>,
    answers: Vec<Answer>,
    start_map: Option<ExpiringMap>,
}

impl Model for WorldCore {
    ghost use Rattle.std.specs.Prelude.{◌≡◌, ◌+◌, ◌≤◌, IfSome, is_some, vec_capacity, vec_len};
    ghost use Rattle.std.specs.Coded.{codes};
    ghost use Rattle.expiring_map.specs.contracts.map.ExpiringMap as map;
    ghost use Rattle.region_words.specs.Region.{base};
    ghost use Rattle.world.specs.World.{IsWorld, WorldState, calls_running};

    ghost Value = { WorldState };

    ghost coded = { Prim.hlevel (codes, map.the_row.coded) };

    ghost view = { λ w. record { region = w.seat.region; openers = w.openers.items; answers = w.answers.items; noted = is_some w.start_map } };

    ghost invariant = { λ w. IsWorld w.seat.region w.openers.items w.answers.items × (vec_len w.answers + calls_running w.openers.items ≤ vec_capacity w.answers)
        × IfSome w.start_map (λ m. m ≡ base w.seat.region.start) };
}

impl WorldCore {
    /// A world without openers. Its region is one that was just made; its calls may be such as are to fail.
    pub fn new(alloc: Global, region: LocalRegion) -> WorldCore
        requires past { region.past ≡ [] }
        requires new { region.accounts ≡ replicate 65 no_account }
        requires accepted { IsAccepted region.start }
        ensures new { result ≡ record { region = region; openers = []; answers = []; noted = false } }
        ensures sound { IsSound result }
    {
        WorldCore {
            alloc,
            seat: region.seat(1),
            openers: Vec::new(alloc),
            answers: Vec::new(alloc),
            start_map: None,
        }
    }

    /// Notes the map that the region shows, for `base`. No opener was opened yet.
    pub fn note_base(&mut self) -> Result<(), Memory>
        requires { self.old.openers ≡ [] }
        ensures sound { IsSound self.new }
        ensures ok { OnOk result (self.new ≡ record self.old { noted = true }) }
        ensures same { OnErr result (self.new ≡ self.old) }
    {
        let map = start_map(self.alloc, self.seat.region())?;
        mem::drop(mem::replace(&mut self.start_map, Some(map)));
        Ok(())
    }

    /// The map that the region showed at the start, which was noted: the empty one of a damaged region.
    pub fn base(&self) -> &ExpiringMap
        requires { self.now.noted ≡ true }
        ensures { result.now ≡ base self.now.region.start }
    {
        match &self.start_map {
            Some(map) => map,
            None => unreachable!(),
        }
    }

    /// How many openers were opened.
    pub fn count(&self) -> usize
        ensures count { result ≡ length self.now.openers }
        ensures sound { IsSound self.now }
    {
        self.openers.len()
    }

    /// Opens one more opener, and gives its number. It lives until a call on the region fails for it.
    pub fn open(&mut self) -> Result<u32, OpenStop>
        ensures sound { IsSound self.new }
        ensures ok { IfOk result (λ who. Opens who self.old self.new) }
        ensures err { IfErr result (λ why. IsNotOpened why self.old) }
        ensures same { OnErr result (self.new ≡ self.old) }
    {
        open_one(self.alloc, &mut self.seat, &mut self.openers, &self.answers)
    }

    /// Begins a call of an opener at a moment, in seconds. Room is kept for its answer. Where it isn't begun, nothing changes.
    pub fn begin(&mut self, who: u32, call: Call, now: u32) -> Result<(), WorldStop>
        ensures sound { IsSound self.new }
        ensures ok { OnOk result (Begun who call now self.old self.new) }
        ensures err { IfErr result (λ why. IsNotBegun why who call self.old) }
        ensures same { OnErr result (self.new ≡ self.old) }
    {
        let Some(place) = place_of(&self.openers, who) else {
            mem::drop(call);
            return Err(WorldStop::NoOpener);
        };
        let Ok(()) = self.answers.reserve(MOST_OPENERS) else {
            mem::drop(call);
            return Err(WorldStop::Memory);
        };
        begin_at(
            &mut self.seat,
            &mut self.openers,
            &self.answers,
            place,
            call,
            now,
        )
    }

    /// The next step of an opener's call. It takes no memory but what the call itself takes.
    pub fn step(&mut self, who: u32) -> Moved
        ensures sound { IsSound self.new }
        ensures moves { Moves who result self.old self.new }
        ensures held { HoldsAreKept who self.old self.new }
    {
        let Some(place) = place_of(&self.openers, who) else {
            return Moved::NoOpener;
        };
        step_at(&mut self.seat, &mut self.openers, &mut self.answers, place)
    }

    /// The opener of this number dies, and its lock is given up. Where its next step would store a payload word, a death with
    /// `torn` leaves the bytes of that word on which the old one and the new one agree, and the others are those of `torn`,
    /// little-endian. The answer is whether one lived.
    pub fn die(&mut self, who: u32, torn: Option<u32>) -> bool
        ensures sound { IsSound self.new }
        ensures dies { Dies who torn result self.old self.new }
    {
        let Some(place) = place_of(&self.openers, who) else {
            return false;
        };
        die_at(
            self.alloc,
            &mut self.seat,
            &mut self.openers,
            &self.answers,
            place,
            torn,
        );
        true
    }

    /// Whether an opener of this number was opened and lives.
    pub fn lives(&self, who: u32) -> bool
        ensures { IsTrue result ↔ IsLiving self.now.openers who }
    {
        place_of(&self.openers, who).is_some()
    }

    /// The stop with which an opener's call ends once its lock is given up, where it has found one.
    pub fn stop_found(&self, who: u32) -> Option<Stop>
        ensures found { (o : OpenerState) → Lives self.now.openers who o → result ≡ stop_found o.work }
        ensures none { (IsLiving self.now.openers who → ⊥) → result ≡ None }
    {
        let place = place_of(&self.openers, who)?;
        self.openers[place].stop_found()
    }

    /// What was answered, in the order of the answers.
    pub fn answers(&self) -> &[Answer]
        ensures answers { result.now ≡ self.now.answers }
        ensures history { IsOneHistory self.now }
    {
        &self.answers
    }

    /// The region as it is, with the journal of what the openers did.
    pub fn region(&self) -> &LocalRegion
        ensures region { result.now ≡ self.now.region }
        ensures accepted { IsAccepted self.now.region.start }
        ensures shows { RestsWithItsHistory self.now }
        ensures undying { RestsWithoutDeath self.now }
    {
        let region = self.seat.region();
        region.journal();
        region
    }

    /// The region, without its openers.
    pub fn into_region(self) -> LocalRegion
        ensures { result ≡ self.region }
    {
        self.seat.into_region()
    }
}
