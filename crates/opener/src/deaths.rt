// The death of an opener.
ghost use Rattle.std.specs.Prelude.{◌≡◌, IfErr, OnErr, OnOk, Some};
ghost use Rattle.region_words.specs.Making.{next_of};
ghost use Rattle.region_words.specs.Share.{IsTurnedAway};
ghost use Rattle.opener.specs.Deaths.{DeathEnds, DeathSettles, DiesAt, torn_at, torn_first};
ghost use Rattle.opener.specs.Opener.{Tied};
ghost use Rattle.opener.specs.Quick.{ended_as};
ghost use Rattle.opener.specs.Writes.{first_events};

use crate::opener_core::OpenerCore;
use crate::plan::Plan;
use crate::work::{Stage, Work};
use lock_rules::LockCounts;
use region_words::{Next, Share, ShareStop, Side, TornStore};
use std::alloc::Global;
use std::mem;

impl OpenerCore {
    /// An opener of this number that has ended. It makes no calls.
    pub fn ended(alloc: Global, who: u32) -> OpenerCore
        ensures { result ≡ ended_as who }
    {
        OpenerCore {
            alloc,
            who,
            image: None,
            counts: LockCounts::new(),
            work: Work::Ended,
        }
    }

    /// The opener dies, and its lock is given up. Where its next step would store a payload word, a death with `torn` leaves the
    /// bytes of that word on which the old one and the new one agree, and the others are those of `torn`, little-endian. It is
    /// handed back where it isn't its turn on the share.
    pub fn die<S: Share>(self, share: &mut S, torn: Option<u32>) -> Result<(), OpenerCore>
        requires { Tied self (S.state share.old) }
        ensures dead { OnOk result (DiesAt self.work torn (S.state share.old) (S.state share.new)) }
        ensures ended { OnOk result (DeathEnds self (S.state share.new)) }
        ensures settles { OnOk result (DeathSettles self (S.state share.old) (S.state share.new)) }
        ensures back { IfErr result (λ o. o ≡ self) }
        ensures turn { OnErr result (IsTurnedAway (S.state share.old) (S.state share.new)) }
        ensures tied { IfErr result (λ o. Tied o (S.state share.new)) }
    {
        if self.is_ended() {
            mem::drop(self);
            return Ok(());
        }
        match share.die(self.torn_store(torn)) {
            Ok(()) => {
                mem::drop(self);
                Ok(())
            }
            // (a share that fails counts as its opener's death)
            Err(ShareStop::Failed) => {
                mem::drop(self);
                Ok(())
            }
            Err(ShareStop::Turn) => Err(self),
            Err(ShareStop::Memory | ShareStop::JournalFull) => unreachable!(),
        }
    }

    // The store of the next step, where that is one of a payload word and a death tears it to these bits.
    fn torn_store(&self, torn: Option<u32>) -> Option<TornStore>
        ensures { result ≡ torn_at self.now.work torn }
    {
        let bits = torn?;
        match &self.work {
            Work::Runs {
                stage: Stage::Store(plan),
                ..
            } => plan.torn_store(bits),
            _ => None,
        }
    }
}

impl Plan {
    // The next event's store, where it is one of a payload word, torn to these bits.
    fn torn_store(&self, bits: u32) -> Option<TornStore>
        ensures { result ≡ torn_first (first_events self.now) (Some bits) }
    {
        match self.next() {
            Next::Store {
                side: Side::Data,
                word,
                value,
            } if word > 0 => Some(TornStore {
                word,
                new: value,
                bits,
            }),
            _ => None,
        }
    }

    // The event that comes next.
    fn next(&self) -> Next
        ensures { result ≡ next_of (first_events self.now) }
    {
        match self {
            Plan::Append { appending, .. } => appending.next(),
            Plan::Rewrite { rewriting, .. } => rewriting.next(),
        }
    }
}
