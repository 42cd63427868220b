// How often the calls of a seat ended in one way or another.
ghost use Rattle.std.specs.Prelude.{◌≡◌, IfErr, IfOk, OnOk};
ghost use Rattle.region_words.specs.Outside.{one_more};
ghost use Rattle.step_desk.specs.Passes.{counts_after_stop, counts_after_try, no_counts};

use lock_rules::Tried;
use region_words::{ShareStop, Unstored};

/// How often the calls of a seat failed, loaded, and found the lock taken.
#[derive(Clone, Copy, Debug, PartialEq, Eq)]
pub struct CallCounts {
    faults: u64,
    loads: u64,
    busy: u64,
}

impl CallCounts {
    pub(crate) fn none() -> CallCounts
        ensures { result ≡ no_counts }
    {
        CallCounts {
            faults: 0,
            loads: 0,
            busy: 0,
        }
    }

    // After one more load.
    pub(crate) fn loaded(self) -> CallCounts
        ensures { result ≡ record self { loads = one_more self.loads } }
    {
        CallCounts {
            loads: self.loads.saturating_add(1),
            ..self
        }
    }

    // After a call that was not answered.
    pub(crate) fn stopped(self, stop: ShareStop) -> CallCounts
        ensures { result ≡ counts_after_stop stop self }
    {
        match stop {
            ShareStop::Failed => CallCounts {
                faults: self.faults.saturating_add(1),
                ..self
            },
            _ => self,
        }
    }

    // After a load, or its refusal.
    pub(crate) fn after_load(self, outcome: &Result<u32, ShareStop>) -> CallCounts
        ensures ok { OnOk outcome.now (result ≡ record self { loads = one_more self.loads }) }
        ensures err { IfErr outcome.now (λ stop. result ≡ counts_after_stop stop self) }
    {
        match outcome {
            Ok(_) => self.loaded(),
            Err(stop) => self.stopped(*stop),
        }
    }

    // After a call that isn't counted where it is answered.
    pub(crate) fn after_call(self, outcome: &Result<(), ShareStop>) -> CallCounts
        ensures ok { OnOk outcome.now (result ≡ self) }
        ensures err { IfErr outcome.now (λ stop. result ≡ counts_after_stop stop self) }
    {
        match outcome {
            Ok(_) => self,
            Err(stop) => self.stopped(*stop),
        }
    }

    // After a store, which isn't counted either.
    pub(crate) fn after_store(self, outcome: &Result<(), Unstored>) -> CallCounts
        ensures ok { OnOk outcome.now (result ≡ self) }
        ensures err { IfErr outcome.now (λ unstored. result ≡ counts_after_stop unstored.stop self) }
    {
        match outcome {
            Ok(_) => self,
            Err(unstored) => self.stopped(unstored.stop),
        }
    }

    // After a try for the lock, or its refusal.
    pub(crate) fn after_try(self, outcome: &Result<Tried, ShareStop>) -> CallCounts
        ensures ok { IfOk outcome.now (λ tried. result ≡ counts_after_try tried self) }
        ensures err { IfErr outcome.now (λ stop. result ≡ counts_after_stop stop self) }
    {
        match outcome {
            Ok(Tried::Taken) => self,
            Ok(Tried::Busy(_)) => CallCounts {
                busy: self.busy.saturating_add(1),
                ..self
            },
            Err(stop) => self.stopped(*stop),
        }
    }
}
