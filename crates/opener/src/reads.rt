// The stages of a read and of a hold, each with one call on the share.
ghost use Rattle.std.specs.Prelude.{◌≡◌, ◌<◌, ◌≤◌};
ghost use Rattle.opener.specs.Calls.{is_write};
ghost use Rattle.opener.specs.Ends.{Replies, answer_of, stop_of};
ghost use Rattle.opener.specs.Opener.{Tied, running_as};
ghost use Rattle.opener.specs.Steps.{Steps};

use crate::calls::{Step, Stop};
use crate::opener_core::OpenerCore;
use crate::reply::reply_in;
use crate::work::{End, Extent, Running, Stage, Work};
use change_log::{Answer, Call, Reply};
use loader::{LoadStop, Loaded, Loading, Went};
use lock_rules::{Ask, Leave, LockCounts, LockKind, Tried};
use meta_record::{RecordFault, Shown};
use region_words::{Peek, Share, ShareStop};
use std::alloc::Global;
use std::mem;

impl OpenerCore {
    pub(crate) fn peek_checksum<S: Share>(&mut self, share: &mut S, running: Running) -> Step
        requires { Tied (running_as self.old running Stage.PeekChecksum) (S.state share.old) }
        ensures { Steps self.old running Stage.PeekChecksum result self.new (S.state share.old) (S.state share.new) }
    {
        match share.peek_checksum() {
            Ok(peek) => self.going(running.with_load(), Stage::PeekSequence(peek)),
            Err(stop) => self.stopped(stop, running, Stage::PeekChecksum),
        }
    }

    pub(crate) fn peek_sequence<S: Share>(
        &mut self,
        share: &mut S,
        running: Running,
        peek: Peek,
    ) -> Step
        requires { Tied (running_as self.old running (Stage.PeekSequence peek)) (S.state share.old) }
        ensures { Steps self.old running (Stage.PeekSequence peek) result self.new (S.state share.old) (S.state share.new) }
    {
        match share.peek_sequence() {
            Ok(sequence) => match self.load_after(peek, sequence) {
                None => self.ready(running.with_load(), peek.changes, share.changes()),
                Some(extent) => self.load_next(running.with_load(), extent),
            },
            Err(stop) => self.stopped(stop, running, Stage::PeekSequence(peek)),
        }
    }

    pub(crate) fn lock_shared<S: Share>(
        &mut self,
        share: &mut S,
        running: Running,
        extent: Extent,
    ) -> Step
        requires { Tied (running_as self.old running (Stage.LockShared extent)) (S.state share.old) }
        ensures { Steps self.old running (Stage.LockShared extent) result self.new (S.state share.old) (S.state share.new) }
    {
        match share.try_lock(LockKind::Shared) {
            Ok(Tried::Taken) => self.begin_load(running.with_lock(LockKind::Shared), extent),
            Ok(Tried::Busy(holder)) => self.blocked(running, Stage::LockShared(extent), holder),
            Err(stop) => self.stopped(stop, running, Stage::LockShared(extent)),
        }
    }

    pub(crate) fn load<S: Share>(
        &mut self,
        share: &mut S,
        running: Running,
        loading: Loading,
    ) -> Step
        requires { Tied (running_as self.old running (Stage.Load loading)) (S.state share.old) }
        ensures { Steps self.old running (Stage.Load loading) result self.new (S.state share.old) (S.state share.new) }
    {
        let mut loading = loading;
        match loading.step(share) {
            Ok(Went::Going) => self.going(running.with_load(), Stage::Load(loading)),
            Ok(Went::Done) => {
                self.loaded(running.with_load(), loading.finish(), share.changes())
            }
            Err(LoadStop::Share(stop)) => self.stopped(stop, running, Stage::Load(loading)),
            Err(LoadStop::Record(fault)) => {
                mem::drop(loading);
                let end = End::Stop(stop_of(fault));
                self.leave(running.with_load(), end, share.changes())
            }
            Err(LoadStop::Memory) => {
                mem::drop(loading);
                let end = End::Stop(Stop::Memory);
                self.leave(running.with_load(), end, share.changes())
            }
        }
    }

    pub(crate) fn unlock<S: Share>(&mut self, share: &mut S, running: Running, end: End) -> Step
        requires { Tied (running_as self.old running (Stage.Unlock end)) (S.state share.old) }
        ensures { Steps self.old running (Stage.Unlock end) result self.new (S.state share.old) (S.state share.new) }
    {
        match share.unlock() {
            Ok(()) => self.finish(running, end, share.changes()),
            Err(stop) => self.stopped(stop, running, Stage::Unlock(end)),
        }
    }

    pub(crate) fn hold<S: Share>(&mut self, share: &mut S, running: Running) -> Step
        requires { Tied (running_as self.old running Stage.Hold) (S.state share.old) }
        ensures { Steps self.old running Stage.Hold result self.new (S.state share.old) (S.state share.new) }
    {
        match self.counts.ask(LockKind::Exclusive) {
            Ask::Counted => self.done(running, self.one_more(), share.changes()),
            Ask::Take => self.take_hold(share, running),
            Ask::GiveUpThenTake | Ask::TooDeep => unreachable!(),
        }
    }

    // The first of its holds takes the lock.
    fn take_hold<S: Share>(&mut self, share: &mut S, running: Running) -> Step
        requires tied { Tied (running_as self.old running Stage.Hold) (S.state share.old) }
        requires none { self.old.holds ≡ 0 }
        ensures { Steps self.old running Stage.Hold result self.new (S.state share.old) (S.state share.new) }
    {
        match share.try_lock(LockKind::Exclusive) {
            Ok(Tried::Taken) => {
                let counts = self.one_more();
                self.done(
                    running.with_lock(LockKind::Exclusive),
                    counts,
                    share.changes(),
                )
            }
            Ok(Tried::Busy(holder)) => self.blocked(running, Stage::Hold, holder),
            Err(stop) => self.stopped(stop, running, Stage::Hold),
        }
    }

    pub(crate) fn release<S: Share>(&mut self, share: &mut S, running: Running) -> Step
        requires { Tied (running_as self.old running Stage.Release) (S.state share.old) }
        ensures { Steps self.old running Stage.Release result self.new (S.state share.old) (S.state share.new) }
    {
        let mut counts = self.counts;
        match counts.leave(LockKind::Exclusive) {
            Leave::Counted => self.done(running, counts, share.changes()),
            Leave::GiveUp => self.leave_hold(share, running),
            Leave::BackToShared | Leave::NotHeld => unreachable!(),
        }
    }

    // The last of its holds gives the lock up.
    fn leave_hold<S: Share>(&mut self, share: &mut S, running: Running) -> Step
        requires tied { Tied (running_as self.old running Stage.Release) (S.state share.old) }
        requires last { self.old.holds ≡ 1 }
        ensures { Steps self.old running Stage.Release result self.new (S.state share.old) (S.state share.new) }
    {
        match share.unlock() {
            Ok(()) => self.done(running, LockCounts::new(), share.changes()),
            Err(stop) => self.stopped(stop, running, Stage::Release),
        }
    }
}

// What an opener is left with.
impl OpenerCore {
    ghost use Rattle.std.specs.Prelude.{◌≡◌, ◌≢◌, ◌<◌, ◌≤◌, ◌+◌, None, Some, is_some, not};
    ghost use Rattle.lock_rules.specs.declared.limits.TheConstants.{DEEPEST_COUNT};
    ghost use Rattle.opener.specs.Calls.{AfterStop};
    ghost use Rattle.opener.specs.Quick.{ended_as};
    ghost use Rattle.opener.specs.Ends.{GoesOn, Waits, IsDone, Finishes, Leaves, Reads, Notices, IsLoaded, IsReady, OnImage};
    ghost use Rattle.opener.specs.Extents.{load_after};

    // What it counts with one hold more.
    fn one_more(&self) -> LockCounts
        requires { self.now.holds < DEEPEST_COUNT }
        ensures { result ≡ record { shared = 0; exclusive = self.now.holds + 1 } }
    {
        let mut counts = self.counts;
        counts.took(LockKind::Exclusive);
        counts
    }

    // The call goes on with this stage.
    pub(crate) fn going(&mut self, running: Running, stage: Stage) -> Step
        ensures { GoesOn running stage self.old result self.new }
    {
        self.run(running, stage);
        Step::Going
    }

    // The call waits for this holder.
    pub(crate) fn blocked(&mut self, running: Running, stage: Stage, holder: u32) -> Step
        ensures { Waits running stage holder self.old result self.new }
    {
        self.run(running, stage);
        Step::Blocked(holder)
    }

    // A call on the share was not answered.
    pub(crate) fn stopped(&mut self, stop: ShareStop, running: Running, stage: Stage) -> Step
        ensures { AfterStop stop self.old running stage result self.new }
    {
        self.run(running, stage);
        match stop {
            ShareStop::Turn => Step::Again,
            ShareStop::Failed => self.fail(),
            ShareStop::Memory => self.give_up(Stop::Memory),
            ShareStop::JournalFull => self.give_up(Stop::JournalFull),
        }
    }

    // The share failed, and the opener ends.
    fn fail(&mut self) -> Step
        ensures step { result ≡ Step.Stopped Stop.Fault }
        ensures who { self.new.who ≡ self.old.who }
        ensures left { (self.new.holds ≡ 0) × (self.new.image ≡ None) × (self.new.work ≡ Work.Ended) }
    {
        self.end();
        Step::Stopped(Stop::Fault)
    }

    // The opener ends, and keeps nothing.
    pub(crate) fn end(&mut self)
        ensures { self.new ≡ ended_as self.old.who }
    {
        self.counts = LockCounts::new();
        self.image = None;
        self.set_work(Work::Ended);
    }

    // The call is over, and the image is no longer kept.
    fn give_up(&mut self, stop: Stop) -> Step
        ensures step { result ≡ Step.Stopped stop }
        ensures kept { self.new ≡ record self.old { image = None; work = Work.Idle } }
    {
        self.image = None;
        self.set_work(Work::Idle);
        Step::Stopped(stop)
    }

    // The call ends so, where this many changes have been made.
    fn finish(&mut self, running: Running, end: End, ended: u32) -> Step
        ensures { Finishes running end ended self.old result self.new }
    {
        match end {
            End::Answer { place, reply } => {
                self.set_work(Work::Idle);
                Step::Answered(answer_of(self.who, running, place, ended, reply))
            }
            End::Stop(stop) => {
                mem::drop(running);
                self.give_up(stop)
            }
        }
    }

    // A hold or a release is answered at this number of changes, and leaves these counts.
    fn done(&mut self, running: Running, counts: LockCounts, place: u32) -> Step
        requires { counts.shared ≡ 0 }
        ensures { IsDone running counts.exclusive place self.old result self.new }
    {
        self.counts = counts;
        self.set_work(Work::Idle);
        Step::Answered(answer_of(self.who, running, place, place, Reply::Done))
    }

    // Where the call has taken no lock itself it ends at once; else its lock is given up first.
    pub(crate) fn leave(&mut self, running: Running, end: End, ended: u32) -> Step
        ensures { Leaves running end ended self.old result self.new }
    {
        match running.taken {
            None => self.finish(running, end, ended),
            Some(_) => self.going(running, Stage::Unlock(end)),
        }
    }

    // The stage that loads the whole region.
    pub(crate) fn reading(&self, taken: Option<LockKind>) -> Stage
        ensures { Reads self.now.holds taken result }
    {
        if self.holds() > 0 || taken.is_some() {
            Stage::Load(Loading::full(self.alloc))
        } else {
            Stage::LockShared(Extent::Full)
        }
    }

    // The stage that finds the region as it is: a look at the checksum where an image is kept, else a load.
    pub(crate) fn noticing(&self, taken: Option<LockKind>) -> Stage
        ensures { Notices self.now.image self.now.holds taken result }
    {
        if self.image.is_some() {
            Stage::PeekChecksum
        } else {
            self.reading(taken)
        }
    }

    // Whether both peeks gave the words of the image that is kept.
    pub(crate) fn is_current(&self, peek: Peek, sequence: u32) -> bool
        ensures { result ≡ not (is_some (load_after self.now.image peek sequence)) }
    {
        self.load_after(peek, sequence).is_none()
    }

    // A load is done. A whole image is kept, and without one the call stops.
    fn loaded(&mut self, running: Running, loaded: Loaded, place: u32) -> Step
        ensures { IsLoaded running loaded place self.old result self.new }
    {
        let Shown::Whole(_) = loaded.shown else {
            let end = End::Stop(Stop::NotWhole(loaded.shown));
            return self.leave(running, end, place);
        };
        self.image = Some(loaded.image);
        self.ready(running, place, place)
    }

    // The image that is kept is that of this place. A write goes on to its stores, and a read is answered.
    pub(crate) fn ready(&mut self, running: Running, place: u32, ended: u32) -> Step
        requires { self.old.image ≢ None }
        ensures { IsReady running place ended self.old result self.new }
    {
        if is_write(&running.call) {
            return self.going(running, Stage::Size);
        }
        let end = self.reply(&running, place);
        self.leave(running, end, ended)
    }

    // How a call ends that the kept image answers.
    fn reply(&self, running: &Running, place: u32) -> End
        requires { self.now.image ≢ None }
        ensures { OnImage self.now.image (λ i. Replies running.entry.now i place result) }
    {
        let Some(image) = &self.image else {
            unreachable!()
        };
        match reply_in(self.alloc, image.map(), running.now, &running.call) {
            Ok(reply) => End::Answer { place, reply },
            Err(_) => End::Stop(Stop::Memory),
        }
    }
}

// Whether a call changes the map.
pub(crate) fn is_write(call: &Call) -> bool
    ensures { result ≡ is_write call.now }
{
    matches!(
        call,
        Call::Put { .. } | Call::Remove { .. } | Call::Clear | Call::Enable { .. } | Call::Disable
    )
}

fn answer_of(who: u32, running: Running, place: u32, ended: u32, reply: Reply) -> Answer
    ensures { result ≡ answer_of who running place ended reply }
{
    Answer {
        who,
        call: running.call,
        now: running.now,
        begun: running.begun,
        place,
        ended,
        reply,
        loads: running.loads,
        stores: running.stores,
        locks: running.locks,
    }
}

// Why a call stops whose record is refused.
fn stop_of(fault: RecordFault) -> Stop
    ensures { result ≡ stop_of fault }
{
    match fault {
        RecordFault::Version(version) => Stop::Version(version),
        RecordFault::Flags(flags) => Stop::Flags(flags),
    }
}
