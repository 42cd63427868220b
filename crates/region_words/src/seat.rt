// A seat at a region in memory: a share that owns it.
ghost use Rattle.std.specs.Prelude.{◌≡◌, ◌+◌, ◌<◌, ◌≤◌, false, true, [], Some, None, length, IfErr, IfSome, OnOk};
ghost use Rattle.lock_rules.specs.declared.limits.TheConstants.{MOST_OPENERS};
ghost use Rattle.region_words.specs.Stores.{filled_up};
ghost use Rattle.region_words.specs.Share.{IsNotDue, Fails, MayMake, MayTearAt, most_events};
ghost use Rattle.region_words.specs.Local.{Seated, IsLocal, LacksPlaces, seat_state, seat_called, account_of, with_account, after_admission, kept_in, stop_of};

use crate::event::{Mark, Side, What};
use crate::places::AdmitStop;
use crate::region::LocalRegion;
use crate::share::Share;
use crate::stops::{Peek, ShareStop, TornStore, Unstored};
use lock_rules::{LockKind, Tried};
use std::marker::Model;

const CHECKSUM: u32 = 0;

const SEQUENCE: u32 = 2;

/// A region in memory with the opener whose calls are made on it. It is alone, and tells its journal.
#[derive(Drop)]
pub struct LocalSeat {
    region: LocalRegion,
    who: u32,
}

impl Model for LocalSeat {
    ghost use Rattle.std.specs.Prelude.{◌≤◌};
    ghost use Rattle.lock_rules.specs.declared.limits.TheConstants.{MOST_OPENERS};
    ghost use Rattle.region_words.specs.Local.{Seated};

    ghost Value = { Seated };

    ghost view = { λ s. record { who = s.who; region = s.region } };

    ghost invariant = { λ s. (1 ≤ s.who) × (s.who ≤ MOST_OPENERS) };
}

impl LocalRegion {
    /// A share that owns the region and makes its calls as this opener. As long as the opener isn't admitted, it is ended.
    pub fn seat(self, who: u32) -> LocalSeat
        requires least { 1 ≤ who }
        requires most { who ≤ MOST_OPENERS }
        ensures { result ≡ record { who = who; region = self } }
    {
        LocalSeat { region: self, who }
    }
}

impl LocalSeat {
    /// The later calls are those of this opener.
    pub fn turn_to(&mut self, who: u32)
        requires least { 1 ≤ who }
        requires most { who ≤ MOST_OPENERS }
        ensures { self.new ≡ record self.old { who = who } }
    {
        self.who = who;
    }

    /// Lets an opener make events, and keeps a place for its death.
    pub fn admit(&mut self, who: u32) -> Result<(), AdmitStop>
        requires least { 1 ≤ who }
        requires most { who ≤ MOST_OPENERS }
        requires new { (account_of self.old.region.accounts who).admitted ≡ false }
        ensures ok { OnOk result (self.new ≡ record self.old { region = with_account self.old.region who (after_admission (account_of self.old.region.accounts who)) }) }
        ensures admitted { OnOk result ((account_of self.new.region.accounts who).admitted ≡ true) }
        ensures room { OnOk result (length self.new.region.past + kept_in self.new.region.accounts ≤ most_events) }
        ensures err { IfErr result (LacksPlaces self.old.region 1) }
        ensures same { IfErr result (λ _. self.new ≡ self.old) }
    {
        self.region.admit(who)
    }

    /// The region.
    pub fn region(&self) -> &LocalRegion
        ensures { result.now ≡ self.now.region }
    {
        &self.region
    }

    /// The region, without the seat.
    pub fn into_region(self) -> LocalRegion
        ensures { result ≡ self.region }
    {
        self.region
    }

    // Counts a call, which may be one that is to fail.
    fn begin(&mut self) -> Result<(), ShareStop>
        requires { (seat_state self.old).ended ≡ false }
        ensures ok { OnOk result (self.new ≡ seat_called self.old) }
        ensures due { OnOk result (IsNotDue (seat_state self.old)) }
        ensures good { OnOk result (IsLocal self.old.region) }
        ensures maker { OnOk result ((1 ≤ self.old.who) × (self.old.who ≤ MOST_OPENERS)) }
        ensures err { IfErr result (λ stop. (stop ≡ ShareStop.Failed) × Fails (seat_state self.old) (seat_state self.new)) }
    {
        if self.region.next_fails() {
            self.region.fail(self.who);
            return Err(ShareStop::Failed);
        }
        Ok(())
    }
}

fn stop_of(stop: AdmitStop) -> ShareStop
    ensures { result ≡ stop_of stop }
{
    match stop {
        AdmitStop::JournalFull => ShareStop::JournalFull,
        AdmitStop::Memory => ShareStop::Memory,
    }
}

impl Share for LocalSeat {
    ghost use Rattle.region_words.specs.Local.{seat_state};

    ghost state = { seat_state };

    fn who(&self) -> u32 {
        self.region.good();
        self.who
    }

    fn changes(&self) -> u32 {
        self.region.count_of_changes()
    }

    fn size(&mut self) -> Result<u32, ShareStop> {
        self.begin()?;
        self.region.count_load(self.who);
        Ok(self.region.size())
    }

    fn load(&mut self, side: Side, word: u32) -> Result<u32, ShareStop> {
        self.begin()?;
        self.region.count_load(self.who);
        Ok(self.region.word(side, word))
    }

    fn peek_checksum(&mut self) -> Result<Peek, ShareStop> {
        self.begin()?;
        self.region.count_load(self.who);
        Ok(Peek {
            checksum: self.region.word(Side::Meta, CHECKSUM),
            changes: self.region.count_of_changes(),
        })
    }

    fn peek_sequence(&mut self) -> Result<u32, ShareStop> {
        self.begin()?;
        self.region.count_load(self.who);
        Ok(self.region.word(Side::Meta, SEQUENCE))
    }

    fn reserve(&mut self, events: u32, size: u32) -> Result<(), ShareStop> {
        self.begin()?;
        if let Err(stop) = self.region.reserve(self.who, events, size) {
            return Err(stop_of(stop));
        }
        Ok(())
    }

    fn store(&mut self, side: Side, word: u32, value: u32, mark: Mark) -> Result<(), Unstored> {
        if let Err(stop) = self.begin() {
            return Err(Unstored { stop, mark });
        }
        self.region.note(
            self.who,
            What::Store {
                side,
                word,
                value,
                mark,
            },
        );
        Ok(())
    }

    fn grow(&mut self, size: u32) -> Result<(), ShareStop> {
        self.begin()?;
        self.region.note(self.who, What::Grow { size });
        Ok(())
    }

    fn try_lock(&mut self, kind: LockKind) -> Result<Tried, ShareStop> {
        self.begin()?;
        match self.region.lock(self.who, kind) {
            Ok(Tried::Taken) => Ok(Tried::Taken),
            Ok(Tried::Busy(holder)) => {
                self.region.count_busy(self.who);
                Ok(Tried::Busy(holder))
            }
            Err(stop) => Err(stop_of(stop)),
        }
    }

    fn unlock(&mut self) -> Result<(), ShareStop> {
        self.begin()?;
        self.region.note(self.who, What::Unlock);
        Ok(())
    }

    fn die(&mut self, torn: Option<TornStore>) -> Result<(), ShareStop> {
        self.begin()?;
        let torn = self.region.torn_word(torn);
        self.region.note(self.who, What::Died { torn });
        Ok(())
    }
}
