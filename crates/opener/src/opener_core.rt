// An opener without its handler: what it keeps between its calls, and its steps.
ghost use Rattle.std.specs.Prelude.{◌≡◌, ℕ, ◌+◌, ◌*◌, ◌≤◌, None, Some, IfErr, OnErr, OnOk};
ghost use Rattle.lock_rules.specs.declared.limits.TheConstants.{MOST_OPENERS};
ghost use Rattle.region_words.specs.Told.{OnTold, changes_told as changes_seen};
ghost use Rattle.opener.specs.Begins.{Begins, HasBytes, IsFirst, begun_at, refusal};
ghost use Rattle.opener.specs.Adds.{AddsTo};
ghost use Rattle.opener.specs.Opener.{Tied, running_as, HasCause, IsAnswer, KeepsWork, OnAnswer, MakesOne, is_ended, stop_found};
ghost use Rattle.opener.specs.Bound.{Falls, steps_left};
ghost use Rattle.opener.specs.Settles.{BeginsSettled, Settles};
ghost use Rattle.opener.specs.Quiet.{ShowsQuietly};
ghost use Rattle.opener.specs.Fresh.{CountedBy, CountsSoFar, HasCounted, LoadsFew, loads_counted};
ghost use Rattle.opener.specs.Refused.{StopsWhereRefused};
ghost use Rattle.opener.specs.Steps.{ActsAt, IsPlaceOf, KeepsImage, LeavesStores, OnRunning, Steps, TakesTried, peek_of};

use crate::calls::{NotBegun, Refused, Step, Stop};
use crate::plan::Plan;
use crate::reads::is_write;
use crate::refusals::refusal;
use crate::work::{End, Running, Stage, Work};
use change_log::Call;
use loader::Image;
use lock_rules::{LockCounts, LockKind};
use region_words::Share;
use std::alloc::Global;
use std::marker::Model;
use std::mem;

/// An opener without its handler, as one value. It keeps the image that it loaded last, and makes its calls in steps of at most one call
/// on its share.
#[derive(Drop)]
pub struct OpenerCore {
    pub(crate) alloc: Global,
    pub(crate) who: u32,
    pub(crate) image: Option<Image>,
    pub(crate) counts: LockCounts,
    pub(crate) work: Work,
}

impl Model for OpenerCore {
    ghost use Rattle.std.specs.Coded.{codes};
    ghost use Rattle.std.specs.Prelude.{◌≡◌};
    ghost use Rattle.expiring_map.specs.contracts.map.ExpiringMap as map;
    ghost use Rattle.opener.specs.State.{OpenerState};

    ghost Value = { OpenerState };

    ghost coded = { Prim.hlevel (codes, map.the_row.coded) };

    ghost view = { λ o. record { who = o.who; image = o.image; holds = o.counts.exclusive; work = o.work } };

    // (a hold is exclusive; a shared lock is taken by a call, for itself alone)
    ghost invariant = { λ o. o.counts.shared ≡ 0 };
}

impl OpenerCore {
    /// An opener of this number, which keeps no image and runs no call.
    pub fn new(alloc: Global, who: u32) -> OpenerCore
        requires least { 1 ≤ who }
        requires most { who ≤ MOST_OPENERS }
        ensures { result ≡ record { who = who; image = None; holds = 0; work = Work.Idle } }
    {
        OpenerCore {
            alloc,
            who,
            image: None,
            counts: LockCounts::new(),
            work: Work::Idle,
        }
    }

    /// Begins a call at a moment, in seconds. Where it is refused, nothing changes.
    pub fn begin<S: Share>(&mut self, share: &S, call: Call, now: u32) -> Result<(), NotBegun>
        requires { Tied self.old (S.state share.now) }
        ensures tied { Tied self.new (S.state share.now) }
        ensures ok { OnOk result (Begins call now (changes_seen (S.state share.now).told) self.old self.new) }
        ensures first { OnOk result (refusal self.old call ≡ None) }
        ensures refused { IfErr result (λ n. (refusal self.old call ≡ Some n.why) × (n.call ≡ call)) }
        ensures same { OnErr result (self.new ≡ self.old) }
        ensures bound { OnOk result ((words : ℕ) → steps_left words self.new.work ≤ 6 * words + 100) }
        ensures settles { OnOk result (BeginsSettled self.old self.new (S.state share.now)) }
        ensures counts { OnOk result (CountsSoFar self.new.work) }
    {
        if let Some(why) = self.refusal(&call) {
            return Err(NotBegun { why, call });
        }
        let stage = self.first_stage(&call);
        let begun = share.changes();
        self.run(begun_at(call, now, begun), stage);
        Ok(())
    }

    // This call runs, and is at this stage.
    pub(crate) fn run(&mut self, running: Running, stage: Stage)
        ensures { self.new ≡ record self.old { work = Work.Runs running stage } }
    {
        self.set_work(Work::Runs { running, stage });
    }

    // The opener is at this work from now on. What it was at is dropped by a call: each function with an assignment in its place
    // would have to prove that drop, variant by variant.
    pub(crate) fn set_work(&mut self, work: Work)
        ensures { self.new ≡ record self.old { work = work } }
    {
        mem::drop(mem::replace(&mut self.work, work));
    }

    // How many holds it has.
    pub(crate) fn holds(&self) -> u32
        ensures { result ≡ self.now.holds }
    {
        self.counts.count(LockKind::Exclusive)
    }

    fn refusal(&self, call: &Call) -> Option<Refused>
        ensures why { result ≡ refusal self.now call.now }
        ensures bytes { result ≡ None → HasBytes call.now }
    {
        match self.work {
            Work::Idle => refusal(call, self.holds()),
            Work::Ended => Some(Refused::Ended),
            Work::Runs { .. } => Some(Refused::CallRunning),
        }
    }

    fn first_stage(&self, call: &Call) -> Stage
        ensures { IsFirst self.now.image self.now.holds call.now result }
    {
        match call {
            Call::Hold => Stage::Hold,
            Call::Release => Stage::Release,
            _ if is_write(call) && self.holds() == 0 => Stage::LockExclusive,
            _ => self.noticing(None),
        }
    }

    /// The next step of the call that runs, with at most one call on the share.
    pub fn step<S: Share>(&mut self, share: &mut S) -> Step
        requires { Tied self.old (S.state share.old) }
        ensures tied { Tied self.new (S.state share.new) }
        ensures makes { MakesOne (S.state share.old) (S.state share.new) }
        ensures adds { AddsTo self.old.who self.old.work result self.new.work (S.state share.old) (S.state share.new) }
        ensures call { KeepsWork self.old result self.new }
        ensures cause { HasCause self.old.work result self.new.work (S.state share.old) (S.state share.new) }
        ensures refused { OnRunning self.old.work (λ stage. StopsWhereRefused stage result self.new.work (S.state share.new)) }
        ensures takes { TakesTried self.old.work (S.state share.old) (S.state share.new) }
        ensures acts { OnRunning self.old.work (λ stage. ActsAt result stage self.old.image self.new.work (S.state share.old) (S.state share.new)) }
        ensures stores { OnRunning self.old.work (λ stage. LeavesStores result stage self.new.work) }
        ensures answer { OnAnswer result (λ a. OnTold (S.state share.new).told (λ h. IsAnswer a h.start h.past)) }
        ensures place { OnRunning self.old.work (λ stage. OnAnswer result (λ a. OnTold (S.state share.new).told (λ h. IsPlaceOf (peek_of stage) a))) }
        ensures image { OnRunning self.old.work (λ stage. KeepsImage result stage self.old.image self.new (S.state share.new)) }
        ensures counts { CountsSoFar self.old.work → OnRunning self.old.work (λ stage. CountedBy result stage self.new.work) }
        ensures loads { CountsSoFar self.old.work → OnRunning self.old.work (λ stage. LoadsFew self.new.image stage (loads_counted result self.new.work)) }
        ensures falls { Falls self.old.work result self.new.work (S.state share.new) }
        ensures settles { Settles self.old result self.new (S.state share.old) (S.state share.new) }
        ensures quiet { ShowsQuietly self.new.who self.new.work (S.state share.new) }
    {
        match mem::replace(&mut self.work, Work::Idle) {
            Work::Idle => Step::Idle,
            Work::Ended => {
                self.set_work(Work::Ended);
                Step::Idle
            }
            Work::Runs { running, stage } => self.go(share, running, stage),
        }
    }

    /// Whether its share has failed. Then it makes no more calls.
    pub fn is_ended(&self) -> bool
        ensures { result ≡ is_ended self.now.work }
    {
        matches!(self.work, Work::Ended)
    }

    /// The stop with which the running call ends once its lock is given up, where it has found one.
    pub fn stop_found(&self) -> Option<Stop>
        ensures { result ≡ stop_found self.now.work }
    {
        match &self.work {
            Work::Runs {
                stage: Stage::Unlock(End::Stop(stop)),
                ..
            } => Some(*stop),
            _ => None,
        }
    }

    fn go<S: Share>(&mut self, share: &mut S, running: Running, stage: Stage) -> Step
        requires { Tied (running_as self.old running stage) (S.state share.old) }
        ensures steps { Steps self.old running stage result self.new (S.state share.old) (S.state share.new) }
        ensures loads { HasCounted stage running → LoadsFew self.new.image stage (loads_counted result self.new.work) }
    {
        match stage {
            Stage::PeekChecksum => self.peek_checksum(share, running),
            Stage::PeekSequence(peek) => self.peek_sequence(share, running, peek),
            Stage::LockShared(extent) => self.lock_shared(share, running, extent),
            Stage::LockExclusive => self.lock_exclusive(share, running),
            Stage::Continue(loading) => self.go_on(share, running, loading),
            Stage::Load(loading) => self.load(share, running, loading),
            Stage::Size => self.size(share, running),
            Stage::Reserve(plan) => self.reserve(share, running, plan),
            Stage::Store(Plan::Append { appending, map }) => {
                self.append(share, running, appending, map)
            }
            Stage::Store(
                Plan::Rewrite {
                    rewriting,
                    then,
                    map,
                },
            ) => self.rewrite(share, running, rewriting, then, map),
            Stage::Unlock(end) => self.unlock(share, running, end),
            Stage::Hold => self.hold(share, running),
            Stage::Release => self.release(share, running),
        }
    }
}

fn begun_at(call: Call, now: u32, begun: u32) -> Running
    ensures { result ≡ begun_at call now begun }
{
    Running {
        call,
        now,
        begun,
        taken: None,
        loads: 0,
        stores: 0,
        locks: 0,
    }
}
