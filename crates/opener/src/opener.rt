// An opener with its handler.
ghost use Rattle.std.specs.Prelude.{◌≡◌, ◌↔◌, ℕ, [], ◌+◌, ◌*◌, ◌≤◌, IfErr, IsTrue, None, OnErr, OnOk, Some, is_some, not, option_copied};
ghost use Rattle.expiring_map.specs.Live.{value_at};
ghost use Rattle.lock_rules.specs.declared.limits.TheConstants.{MOST_OPENERS};
ghost use Rattle.region_words.specs.Share.{IsTurnedAway};
ghost use Rattle.region_words.specs.Told.{OnTold, changes_told as changes_seen};
ghost use Rattle.loader.specs.Maps.{map_of_image};
ghost use Rattle.opener.specs.Adds.{AddsTo};
ghost use Rattle.opener.specs.Begins.{Begins, refusal};
ghost use Rattle.opener.specs.Bound.{Falls, steps_left};
ghost use Rattle.opener.specs.Deaths.{DeathEnds, DeathSettles, DiesAt};
ghost use Rattle.opener.specs.Ends.{OnImage};
ghost use Rattle.opener.specs.Fresh.{CountedBy, CountsSoFar, LoadsFew, loads_counted};
ghost use Rattle.opener.specs.Handled.{HandlerStays};
ghost use Rattle.opener.specs.Opener.{Tied, HasCause, IsAnswer, KeepsWork, OnAnswer, MakesOne, is_ended, stop_found};
ghost use Rattle.opener.specs.Quick.{IsUpToDate, IsStale, OnCold, OnFault, OnStale, PeekFails, left_by};
ghost use Rattle.opener.specs.Quiet.{ShowsQuietly};
ghost use Rattle.opener.specs.Refused.{StopsWhereRefused};
ghost use Rattle.opener.specs.Settles.{BeginsSettled, Settles};
ghost use Rattle.opener.specs.Steps.{ActsAt, IsPlaceOf, KeepsImage, LeavesStores, OnRunning, TakesTried, peek_of};
ghost use Rattle.opener.specs.declared.work.Work.TheVariants.{Idle};

use crate::calls::{NotBegun, Step, Stop};
use crate::opener_core::OpenerCore;
use crate::quick::Quick;
use change_log::Call;
use handlers::Handler;
use region_words::Share;
use std::alloc::Global;
use std::mem;

/// One opener of a shared region. It owns its handler until it ends, keeps the image that it loaded last, and makes its calls
/// in steps of at most one call on its share.
#[derive(Drop)]
pub struct Opener {
    core: OpenerCore,
    handler: Option<Box<dyn Handler + Send>>,
    ghost handled: { is_some handler ≡ not (is_ended core.work) },
}

impl Opener {
    /// An opener of this number, which keeps no image and runs no call. Its handler was asked and told nothing yet.
    pub fn new(alloc: Global, who: u32, handler: Box<dyn Handler + Send>) -> Opener
        requires least { 1 ≤ who }
        requires most { who ≤ MOST_OPENERS }
        requires fresh { (told handler ≡ []) × (changes_told handler ≡ []) }
        ensures core { result.core ≡ record { who = who; image = None; holds = 0; work = Idle } }
        ensures handler { result.handler ≡ Some handler }
    {
        Opener {
            core: OpenerCore::new(alloc, who),
            handler: Some(handler),
        }
    }

    /// Begins a call at a moment, in seconds. Where it is refused, nothing changes.
    pub fn begin<S: Share>(&mut self, share: &S, call: Call, now: u32) -> Result<(), NotBegun>
        requires { Tied self.old.core (S.state share.now) }
        ensures tied { Tied self.new.core (S.state share.now) }
        ensures ok { OnOk result (Begins call now (changes_seen (S.state share.now).told) self.old.core self.new.core) }
        ensures first { OnOk result (refusal self.old.core call ≡ None) }
        ensures refused { IfErr result (λ n. (refusal self.old.core call ≡ Some n.why) × (n.call ≡ call)) }
        ensures same { OnErr result (self.new.core ≡ self.old.core) }
        ensures bound { OnOk result ((words : ℕ) → steps_left words self.new.core.work ≤ 6 * words + 100) }
        ensures settles { OnOk result (BeginsSettled self.old.core self.new.core (S.state share.now)) }
        ensures counts { OnOk result (CountsSoFar self.new.core.work) }
        ensures handler { self.new.handler ≡ self.old.handler }
    {
        self.core.begin(share, call, now)
    }

    /// The next step of the call that runs, with at most one call on the share.
    pub fn step<S: Share>(&mut self, share: &mut S) -> Step
        requires { Tied self.old.core (S.state share.old) }
        ensures tied { Tied self.new.core (S.state share.new) }
        ensures makes { MakesOne (S.state share.old) (S.state share.new) }
        ensures adds { AddsTo self.old.core.who self.old.core.work result self.new.core.work (S.state share.old) (S.state share.new) }
        ensures call { KeepsWork self.old.core result self.new.core }
        ensures cause { HasCause self.old.core.work result self.new.core.work (S.state share.old) (S.state share.new) }
        ensures refused { OnRunning self.old.core.work (λ stage. StopsWhereRefused stage result self.new.core.work (S.state share.new)) }
        ensures takes { TakesTried self.old.core.work (S.state share.old) (S.state share.new) }
        ensures acts { OnRunning self.old.core.work (λ stage. ActsAt result stage self.old.core.image self.new.core.work (S.state share.old) (S.state share.new)) }
        ensures stores { OnRunning self.old.core.work (λ stage. LeavesStores result stage self.new.core.work) }
        ensures answer { OnAnswer result (λ a. OnTold (S.state share.new).told (λ h. IsAnswer a h.start h.past)) }
        ensures place { OnRunning self.old.core.work (λ stage. OnAnswer result (λ a. OnTold (S.state share.new).told (λ h. IsPlaceOf (peek_of stage) a))) }
        ensures image { OnRunning self.old.core.work (λ stage. KeepsImage result stage self.old.core.image self.new.core (S.state share.new)) }
        ensures counts { CountsSoFar self.old.core.work → OnRunning self.old.core.work (λ stage. CountedBy result stage self.new.core.work) }
        ensures loads { CountsSoFar self.old.core.work → OnRunning self.old.core.work (λ stage. LoadsFew self.new.core.image stage (loads_counted result self.new.core.work)) }
        ensures falls { Falls self.old.core.work result self.new.core.work (S.state share.new) }
        ensures settles { Settles self.old.core result self.new.core (S.state share.old) (S.state share.new) }
        ensures quiet { ShowsQuietly self.new.core.who self.new.core.work (S.state share.new) }
        ensures handler { HandlerStays self.new.core.work self.old.handler self.new.handler }
    {
        let came = self.core.step(share);
        if self.core.is_ended() {
            self.handler = None;
        }
        came
    }

    /// The opener dies, and its lock is given up; its handler is dropped. Where its next step would store a payload word, a death
    /// with `torn` leaves the bytes of that word on which the old one and the new one agree, and the others are those of `torn`,
    /// little-endian. It is handed back with its handler where it isn't its turn on the share.
    pub fn die<S: Share>(self, share: &mut S, torn: Option<u32>) -> Result<(), Opener>
        requires { Tied self.core (S.state share.old) }
        ensures dead { OnOk result (DiesAt self.core.work torn (S.state share.old) (S.state share.new)) }
        ensures ended { OnOk result (DeathEnds self.core (S.state share.new)) }
        ensures settles { OnOk result (DeathSettles self.core (S.state share.old) (S.state share.new)) }
        ensures back { IfErr result (λ o. o.core ≡ self.core) }
        ensures handler { IfErr result (λ o. o.handler ≡ self.handler) }
        ensures turn { OnErr result (IsTurnedAway (S.state share.old) (S.state share.new)) }
        ensures tied { IfErr result (λ o. Tied o.core (S.state share.new)) }
    {
        let Opener { core, handler } = self;
        match core.die(share, torn) {
            Ok(()) => {
                mem::drop(handler);
                Ok(())
            }
            Err(core) => Err(Opener { core, handler }),
        }
    }

    /// Whether its share has failed. Then it makes no more calls.
    pub fn is_ended(&self) -> bool
        ensures { result ≡ is_ended self.now.core.work }
    {
        self.core.is_ended()
    }

    /// Whether no call runs, and the opener has not ended.
    pub fn is_idle(&self) -> bool
        ensures { IsTrue result ↔ (self.now.core.work ≡ Idle) }
    {
        self.core.is_idle()
    }

    /// The stop with which the running call ends once its lock is given up, where it has found one.
    pub fn stop_found(&self) -> Option<Stop>
        ensures { result ≡ stop_found self.now.core.work }
    {
        self.core.stop_found()
    }

    /// A look at both words of the region: those of the kept image, or why it doesn't serve. It makes two loads and no event,
    /// asks for no lock and no memory, and waits for nothing.
    pub fn look<S: Share>(&mut self, share: &mut S) -> Result<(), Quick>
        requires tied { Tied self.old.core (S.state share.old) }
        requires idle { self.old.core.work ≡ Idle }
        ensures core { self.new.core ≡ left_by result self.old.core }
        ensures tied { Tied self.new.core (S.state share.new) }
        ensures ok { OnOk result (IsUpToDate self.old.core.image (S.state share.old) (S.state share.new)) }
        ensures none { self.old.core.image ≡ None → result ≡ Err Quick.Cold }
        ensures cold { IfErr result (λ why. OnCold why ((self.old.core.image ≡ None) × (S.state share.new ≡ S.state share.old))) }
        ensures stale { IfErr result (λ why. OnStale why (λ checksum sequence. IsStale self.old.core.image checksum sequence (S.state share.old) (S.state share.new))) }
        ensures fault { IfErr result (λ why. OnFault why (PeekFails (S.state share.old) (S.state share.new))) }
        ensures handler { HandlerStays self.new.core.work self.old.handler self.new.handler }
    {
        let seen = self.core.look(share);
        if self.core.is_ended() {
            self.handler = None;
        }
        seen
    }

    /// The value of a key at a moment, in seconds, in the kept image. After a look that found its words it is that of the region.
    pub fn kept_value(&self, key: &[u8], now: u32) -> Option<&[u8]>
        ensures value { OnImage self.now.core.image (λ i. option_copied result ≡ value_at (map_of_image i) key.now now) }
        ensures none { self.now.core.image ≡ None → result ≡ None }
    {
        self.core.kept_value(key, now)
    }
}
