// A world: a region in memory, the openers that were opened in it with their handlers, and what they answered.
ghost use Rattle.std.specs.Prelude.{◌≡◌, ◌↔◌, ◌++◌, ◌∷◌, [], None, IfErr, IfOk, IsTrue, OnErr, OnOk, Some, false, replicate, true};
ghost use Rattle.opener.specs.Opener.{stop_found};
ghost use Rattle.opener.specs.State.{OpenerState};
ghost use Rattle.region_words.specs.Local.{no_account};
ghost use Rattle.region_words.specs.Region.{IsAccepted, base};
ghost use Rattle.world.specs.Handlers.{HaveHandlers, of_living};
ghost use Rattle.world.specs.World.{IsLiving, IsSound, Lives};
ghost use Rattle.world.specs.Moves.{Begun, Dies, HoldsAreKept, IsNotBegun, IsNotOpened, IsOneHistory, Moves, Opens, RestsWithItsHistory, RestsWithoutDeath};

use crate::moves::Moved;
use crate::openers::{MOST_OPENERS, push_within};
use crate::stops::{NotOpened, OpenStop, WorldStop};
use crate::world_core::WorldCore;
use change_log::{Answer, Call};
use expiring_map::{ExpiringMap, Memory};
use handlers::Handler;
use opener::Stop;
use region_words::LocalRegion;
use std::alloc::Global;

/// A region in memory with its openers, which have the numbers 1, 2, .. in the order in which they were opened. Each has a
/// handler as long as it lives.
#[derive(Drop)]
pub struct World {
    core: WorldCore,
    handlers: Vec<Option<Box<dyn Handler + Send>>>,
    ghost handled: { HaveHandlers core.openers handlers.items },
}

impl World {
    /// A world without openers. Its region is one that was just made; its calls may be such as are to fail.
    pub fn new(alloc: Global, region: LocalRegion) -> World
        requires past { region.past ≡ [] }
        requires new { region.accounts ≡ replicate 65 no_account }
        requires accepted { IsAccepted region.start }
        ensures new { result.core ≡ record { region = region; openers = []; answers = []; noted = false } }
        ensures handlers { result.handlers.items ≡ [] }
        ensures sound { IsSound result.core }
    {
        World {
            core: WorldCore::new(alloc, region),
            handlers: Vec::new(alloc),
        }
    }

    /// Notes the map that the region shows, for `base`. No opener was opened yet.
    pub fn note_base(&mut self) -> Result<(), Memory>
        requires { self.old.core.openers ≡ [] }
        ensures sound { IsSound self.new.core }
        ensures ok { OnOk result (self.new.core ≡ record self.old.core { noted = true }) }
        ensures same { OnErr result (self.new.core ≡ self.old.core) }
        ensures handlers { self.new.handlers.items ≡ self.old.handlers.items }
    {
        self.core.note_base()
    }

    /// The map that the region showed at the start, which was noted: the empty one of a damaged region.
    pub fn base(&self) -> &ExpiringMap
        requires { self.now.core.noted ≡ true }
        ensures { result.now ≡ base self.now.core.region.start }
    {
        self.core.base()
    }

    /// Opens one more opener with this handler, which was asked and told nothing yet, and gives its number. It lives until it dies,
    /// or a call on the region fails for it.
    pub fn open(&mut self, handler: Box<dyn Handler + Send>) -> Result<u32, NotOpened>
        requires fresh { (told handler ≡ []) × (changes_told handler ≡ []) }
        ensures sound { IsSound self.new.core }
        ensures ok { IfOk result (λ who. Opens who self.old.core self.new.core) }
        ensures err { IfErr result (λ n. IsNotOpened n.why self.old.core) }
        ensures same { OnErr result (self.new.core ≡ self.old.core) }
        ensures handed_on { OnOk result (self.new.handlers.items ≡ self.old.handlers.items ++ Some handler ∷ []) }
        ensures handed_back { IfErr result (λ n. n.handler ≡ handler) }
        ensures others { OnErr result (self.new.handlers.items ≡ self.old.handlers.items) }
    {
        if self.core.count() < MOST_OPENERS && self.handlers.reserve(1).is_err() {
            let why = OpenStop::Memory;
            return Err(NotOpened { why, handler });
        }
        match self.core.open() {
            Ok(who) => {
                push_within(&mut self.handlers, Some(handler));
                Ok(who)
            }
            Err(why) => Err(NotOpened { why, handler }),
        }
    }

    /// Begins a call of an opener at a moment, in seconds. Room is kept for its answer. Where it isn't begun, nothing changes.
    pub fn begin(&mut self, who: u32, call: Call, now: u32) -> Result<(), WorldStop>
        ensures sound { IsSound self.new.core }
        ensures ok { OnOk result (Begun who call now self.old.core self.new.core) }
        ensures err { IfErr result (λ why. IsNotBegun why who call self.old.core) }
        ensures same { OnErr result (self.new.core ≡ self.old.core) }
        ensures handlers { self.new.handlers.items ≡ self.old.handlers.items }
    {
        self.core.begin(who, call, now)
    }

    /// The next step of an opener's call. It takes no memory but what the call itself takes.
    pub fn step(&mut self, who: u32) -> Moved
        ensures sound { IsSound self.new.core }
        ensures moves { Moves who result self.old.core self.new.core }
        ensures held { HoldsAreKept who self.old.core self.new.core }
        ensures handlers { self.new.handlers.items ≡ of_living self.new.core.openers self.old.handlers.items }
    {
        let moved = self.core.step(who);
        if let Moved::NoOpener = moved {
            return moved;
        }
        if !self.core.lives(who) {
            self.handlers[who as usize - 1] = None;
        }
        moved
    }

    /// The opener of this number dies: its lock is given up, and its handler is dropped. Where its next step would store a payload
    /// word, a death with `torn` leaves the bytes of that word on which the old one and the new one agree, and the others are those of
    /// `torn`, little-endian. The answer is whether one lived.
    pub fn die(&mut self, who: u32, torn: Option<u32>) -> bool
        ensures sound { IsSound self.new.core }
        ensures dies { Dies who torn result self.old.core self.new.core }
        ensures handlers { self.new.handlers.items ≡ of_living self.new.core.openers self.old.handlers.items }
    {
        if !self.core.die(who, torn) {
            return false;
        }
        self.handlers[who as usize - 1] = None;
        true
    }

    /// Whether an opener of this number was opened and lives.
    pub fn lives(&self, who: u32) -> bool
        ensures { IsTrue result ↔ IsLiving self.now.core.openers who }
    {
        self.core.lives(who)
    }

    /// The stop with which an opener's call ends once its lock is given up, where it has found one.
    pub fn stop_found(&self, who: u32) -> Option<Stop>
        ensures found { (o : OpenerState) → Lives self.now.core.openers who o → result ≡ stop_found o.work }
        ensures none { (IsLiving self.now.core.openers who → ⊥) → result ≡ None }
    {
        self.core.stop_found(who)
    }

    /// What was answered, in the order of the answers.
    pub fn answers(&self) -> &[Answer]
        ensures answers { result.now ≡ self.now.core.answers }
        ensures history { IsOneHistory self.now.core }
    {
        self.core.answers()
    }

    /// The region as it is, with the journal of what the openers did.
    pub fn region(&self) -> &LocalRegion
        ensures region { result.now ≡ self.now.core.region }
        ensures accepted { IsAccepted self.now.core.region.start }
        ensures shows { RestsWithItsHistory self.now.core }
        ensures undying { RestsWithoutDeath self.now.core }
    {
        self.core.region()
    }

    /// The region, without its openers.
    pub fn into_region(self) -> LocalRegion
        ensures { result ≡ self.core.region }
    {
        self.core.into_region()
    }
}
