// The stages of a write, each with one call on the share.
ghost use Rattle.opener.specs.Opener.{Tied, running_as};
ghost use Rattle.opener.specs.Steps.{Steps};

use crate::calls::{Step, Stop};
use crate::opener_core::OpenerCore;
use crate::plan::{Plan, plan_of};
use crate::work::{End, Running, Stage};
use change_log::Reply;
use expiring_map::ExpiringMap;
use loader::Image;
use lock_rules::{LockKind, Tried};
use region_words::{RowMaker, Share, ShareStop, Standing, Stored};
use std::mem;

impl OpenerCore {
    pub(crate) fn lock_exclusive<S: Share>(&mut self, share: &mut S, running: Running) -> Step
        requires { Tied (running_as self.old running Stage.LockExclusive) (S.state share.old) }
        ensures { Steps self.old running Stage.LockExclusive result self.new (S.state share.old) (S.state share.new) }
    {
        match share.try_lock(LockKind::Exclusive) {
            Ok(Tried::Taken) => {
                let running = running.with_lock(LockKind::Exclusive);
                let stage = self.noticing(running.taken);
                self.going(running, stage)
            }
            Ok(Tried::Busy(holder)) => self.blocked(running, Stage::LockExclusive, holder),
            Err(stop) => self.stopped(stop, running, Stage::LockExclusive),
        }
    }

    // The image is current. What is to be stored is worked out from it and from the file's size.
    pub(crate) fn size<S: Share>(&mut self, share: &mut S, running: Running) -> Step
        requires { Tied (running_as self.old running Stage.Size) (S.state share.old) }
        ensures { Steps self.old running Stage.Size result self.new (S.state share.old) (S.state share.new) }
    {
        match share.size() {
            Ok(size) => match self.plan(&running, size) {
                Ok(plan) => self.going(running.with_load(), Stage::Reserve(plan)),
                Err(stop) => { self.leave(running.with_load(), End::Stop(stop), share.changes()) }
            },
            Err(stop) => self.stopped(stop, running, Stage::Size),
        }
    }

    pub(crate) fn reserve<S: Share>(&mut self, share: &mut S, running: Running, plan: Plan) -> Step
        requires { Tied (running_as self.old running (Stage.Reserve plan)) (S.state share.old) }
        ensures { Steps self.old running (Stage.Reserve plan) result self.new (S.state share.old) (S.state share.new) }
    {
        match share.reserve(plan.events(), plan.room()) {
            Ok(()) => self.going(running, Stage::Store(plan)),
            Err(stop) => match stop {
                ShareStop::Memory => {
                    mem::drop(plan);
                    self.leave(running, End::Stop(Stop::Memory), share.changes())
                }
                ShareStop::JournalFull => {
                    mem::drop(plan);
                    self.leave(running, End::Stop(Stop::JournalFull), share.changes())
                }
                _ => self.stopped(stop, running, Stage::Reserve(plan)),
            },
        }
    }

    pub(crate) fn rewrite<S: Share>(
        &mut self,
        share: &mut S,
        running: Running,
        rewriting: RowMaker,
        then: Option<RowMaker>,
        map: ExpiringMap,
    ) -> Step
        requires { Tied (running_as self.old running (Stage.Store (Plan.Rewrite rewriting then map))) (S.state share.old) }
        ensures { Steps self.old running (Stage.Store (Plan.Rewrite rewriting then map)) result self.new (S.state share.old) (S.state share.new) }
    {
        let mut rewriting = rewriting;
        let event = rewriting.next();
        match rewriting.step(share) {
            Ok(Stored::More) => {
                let plan = Plan::Rewrite {
                    rewriting,
                    then,
                    map,
                };
                self.going(running.with_event(event), Stage::Store(plan))
            }
            Ok(Stored::Done) => {
                let running = running.with_event(event);
                let standing = rewriting.standing();
                mem::drop(rewriting);
                self.rewritten(running, standing, then, map, share.changes())
            }
            Err(stop) => {
                let plan = Plan::Rewrite {
                    rewriting,
                    then,
                    map,
                };
                self.stopped(stop, running, Stage::Store(plan))
            }
        }
    }

    pub(crate) fn append<S: Share>(
        &mut self,
        share: &mut S,
        running: Running,
        appending: RowMaker,
        map: ExpiringMap,
    ) -> Step
        requires { Tied (running_as self.old running (Stage.Store (Plan.Append appending map))) (S.state share.old) }
        ensures { Steps self.old running (Stage.Store (Plan.Append appending map)) result self.new (S.state share.old) (S.state share.new) }
    {
        let mut appending = appending;
        let event = appending.next();
        match appending.step(share) {
            Ok(Stored::More) => {
                let plan = Plan::Append { appending, map };
                self.going(running.with_event(event), Stage::Store(plan))
            }
            Ok(Stored::Done) => {
                let image = Image {
                    standing: appending.standing(),
                    map,
                };
                mem::drop(appending);
                self.written(running.with_event(event), image, share.changes())
            }
            Err(stop) => {
                let plan = Plan::Append { appending, map };
                self.stopped(stop, running, Stage::Store(plan))
            }
        }
    }
}

// What is left after a part of a write.
impl OpenerCore {
    ghost use Rattle.std.specs.Prelude.{◌≡◌, ◌<◌, ◌^◌, None, IfErr, IfOk};
    ghost use Rattle.opener.specs.Plans.{CanWrite, IsPlanOf, IsNotPlanned};
    ghost use Rattle.opener.specs.Ends.{OnImage, Rewritten, Written, sized_image, IsKeptSound};

    // What the call that runs is to store, where the file has this size, or the one that is known where that is greater. The
    // image is given up for it.
    fn plan(&mut self, running: &Running, size: u32) -> Result<Plan, Stop>
        requires call { CanWrite running.now.call }
        requires image { IsKeptSound self.old.image size }
        ensures kept { self.new ≡ record self.old { image = None } }
        ensures words { OnImage self.old.image (λ i. i.standing.checksum < 2 ^ 32) }
        ensures ok { IfOk result (λ plan. OnImage self.old.image (λ i. IsPlanOf self.old.who running.entry.now.call running.entry.now.now (sized_image i size) plan)) }
        ensures err { IfErr result (λ stop. OnImage self.old.image (λ i. IsNotPlanned running.entry.now.call running.entry.now.now (sized_image i size) stop)) }
    {
        let Some(image) = self.image.take() else {
            unreachable!()
        };
        let image = Image {
            standing: Standing {
                file_size: size.max(image.standing.file_size),
                ..image.standing
            },
            map: image.map,
        };
        plan_of(self.alloc, self.who, &running.call, running.now, image)
    }

    // The pairs are written anew. An item is appended next, or the call ends.
    fn rewritten(
        &mut self,
        running: Running,
        standing: Standing,
        then: Option<RowMaker>,
        map: ExpiringMap,
        ended: u32,
    ) -> Step
        ensures { Rewritten running standing then map ended self.old result self.new }
    {
        match then {
            Some(appending) => self.going(running, Stage::Store(Plan::Append { appending, map })),
            None => self.written(running, Image { standing, map }, ended),
        }
    }

    // All is stored, and the call's change is the last of so many. The image is kept.
    fn written(&mut self, running: Running, image: Image, ended: u32) -> Step
        ensures { Written running image ended self.old result self.new }
    {
        self.image = Some(image);
        let end = End::Answer {
            place: ended.saturating_sub(1),
            reply: Reply::Done,
        };
        self.leave(running, end, ended)
    }
}
