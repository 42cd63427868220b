// How much of the region a call loads, and the stage that goes on from the image that it kept.
ghost use Rattle.opener.specs.Fresh.{HasCounted, LoadsFew, loads_counted};
ghost use Rattle.opener.specs.Opener.{Tied, running_as};
ghost use Rattle.opener.specs.Steps.{Steps};

use crate::calls::{Step, Stop};
use crate::opener_core::OpenerCore;
use crate::work::{End, Extent, Running, Stage};
use loader::{Image, LoadStop, Loading, PartialLoading, Ran};
use region_words::{Peek, Share};
use std::mem;

impl OpenerCore {
    pub(crate) fn go_on<S: Share>(
        &mut self,
        share: &mut S,
        running: Running,
        loading: PartialLoading,
    ) -> Step
        requires { Tied (running_as self.old running (Stage.Continue loading)) (S.state share.old) }
        ensures steps { Steps self.old running (Stage.Continue loading) result self.new (S.state share.old) (S.state share.new) }
        ensures loads { HasCounted (Stage.Continue loading) running → LoadsFew self.new.image (Stage.Continue loading) (loads_counted result self.new.work) }
    {
        let mut loading = loading;
        match loading.step(share) {
            Ok(Ran::Going) => self.going(running.with_load(), Stage::Continue(loading)),
            Ok(Ran::Holds) => {
                self.gone_on(running.with_load(), loading.finish(), share.changes())
            }
            Ok(Ran::Fails) => {
                mem::drop(loading);
                self.begin_load(running.with_load(), Extent::Full)
            }
            Err(LoadStop::Share(stop)) => self.stopped(stop, running, Stage::Continue(loading)),
            Err(LoadStop::Record(_)) => unreachable!(),
            Err(LoadStop::Memory) => {
                mem::drop(loading);
                let end = End::Stop(Stop::Memory);
                self.leave(running.with_load(), end, share.changes())
            }
        }
    }
}

// What an opener is left with.
impl OpenerCore {
    ghost use Rattle.std.specs.Prelude.{◌≡◌};
    ghost use Rattle.opener.specs.Extents.{BeginsLoad, CanLoad, IsGoneOn, LoadsNext, load_after};

    // Which load follows these two peeks, where one does.
    pub(crate) fn load_after(&self, peek: Peek, sequence: u32) -> Option<Extent>
        ensures { result ≡ load_after self.now.image peek sequence }
    {
        let Some(image) = &self.image else {
            return Some(Extent::Full);
        };
        if image.standing.sequence != sequence {
            Some(Extent::Full)
        } else if image.standing.checksum != peek.checksum {
            Some(Extent::Partial)
        } else {
            None
        }
    }

    // So much is loaded next, or a shared lock asked for where nothing is held.
    pub(crate) fn load_next(&mut self, running: Running, extent: Extent) -> Step
        requires { CanLoad extent self.old.image }
        ensures { LoadsNext extent running self.old result self.new }
    {
        if self.holds() > 0 || running.taken.is_some() {
            self.begin_load(running, extent)
        } else {
            self.going(running, Stage::LockShared(extent))
        }
    }

    // So much is loaded next. A partial load takes the image that is kept.
    pub(crate) fn begin_load(&mut self, running: Running, extent: Extent) -> Step
        requires { CanLoad extent self.old.image }
        ensures { BeginsLoad extent running self.old result self.new }
    {
        match extent {
            Extent::Partial => {
                let Some(image) = self.image.take() else {
                    unreachable!()
                };
                let loading = PartialLoading::new(self.alloc, image);
                self.going(running, Stage::Continue(loading))
            }
            Extent::Full => {
                let loading = Loading::full(self.alloc);
                self.going(running, Stage::Load(loading))
            }
        }
    }

    // The kept image goes on to this one, which is kept from now on.
    fn gone_on(&mut self, running: Running, image: Image, place: u32) -> Step
        ensures { IsGoneOn running image place self.old result self.new }
    {
        self.image = Some(image);
        self.ready(running, place, place)
    }
}
