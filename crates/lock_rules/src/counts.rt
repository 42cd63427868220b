// How often an opener has asked for the lock, by kind.
ghost use Rattle.std.specs.Prelude.{◌≡◌, ◌<◌};
ghost use Rattle.lock_rules.specs.declared.limits.TheConstants.{DEEPEST_COUNT};
ghost use Rattle.lock_rules.specs.Counts.{IsWithin, none_counted, count_of, counted_up, counted_down, ask_of, left_of, leave_of};
ghost use Rattle.lock_rules.specs.Steps.{AsksAs, TookAs, LeavesAs};

use crate::limits::DEEPEST_COUNT;
use crate::table::LockKind;
use std::marker::Model;

/// What is to be done for one more hold.
#[derive(Clone, Copy, Debug, PartialEq, Eq)]
pub enum Ask {
    /// The lock that is held serves.
    Counted,
    /// The lock is to be taken.
    Take,
    /// The shared lock is to be given up, and then the exclusive one taken.
    GiveUpThenTake,
    /// No hold of this kind can be counted.
    TooDeep,
}

/// What is to be done after a hold was left.
#[derive(Clone, Copy, Debug, PartialEq, Eq)]
pub enum Leave {
    /// No hold of this kind stood, and nothing has changed.
    NotHeld,
    /// The lock is still needed.
    Counted,
    /// The lock is to be given up.
    GiveUp,
    /// The lock is to be given up, and then taken again as shared.
    BackToShared,
}

/// How many holds of each kind stand.
#[derive(Clone, Copy, Debug, PartialEq, Eq)]
pub struct LockCounts {
    shared: u32,
    exclusive: u32,
}

impl Model for LockCounts {
    ghost use Rattle.std.specs.Prelude.{◌≤◌};
    ghost use Rattle.lock_rules.specs.Counts.{Counts};
    ghost use Rattle.lock_rules.specs.declared.limits.TheConstants.{DEEPEST_COUNT};

    ghost Value = { Counts };

    ghost view = { λ c. record { shared = c.shared; exclusive = c.exclusive } };

    ghost invariant = { λ c. (c.shared ≤ DEEPEST_COUNT) × (c.exclusive ≤ DEEPEST_COUNT) };

    ghost inverse = { λ c. record { shared = c.shared; exclusive = c.exclusive } };
}

impl LockCounts {
    /// No hold stands.
    pub fn new() -> LockCounts
        ensures value { result ≡ none_counted }
        ensures within { IsWithin result }
    {
        LockCounts {
            shared: 0,
            exclusive: 0,
        }
    }

    /// How many holds of this kind stand.
    pub fn count(&self, kind: LockKind) -> u32
        ensures value { result ≡ count_of self.now kind }
        ensures within { IsWithin self.now }
    {
        match kind {
            LockKind::Shared => self.shared,
            LockKind::Exclusive => self.exclusive,
        }
    }

    /// What is to be done for one more hold of this kind. Nothing is counted yet.
    pub fn ask(&self, kind: LockKind) -> Ask
        ensures value { result ≡ ask_of self.now kind }
        ensures step { AsksAs self.now kind result }
        ensures within { IsWithin self.now }
    {
        if self.count(kind) == DEEPEST_COUNT {
            return Ask::TooDeep;
        }
        match kind {
            LockKind::Shared if self.shared > 0 || self.exclusive > 0 => Ask::Counted,
            LockKind::Exclusive if self.exclusive > 0 => Ask::Counted,
            LockKind::Exclusive if self.shared > 0 => Ask::GiveUpThenTake,
            _ => Ask::Take,
        }
    }

    /// Counts one more hold of this kind.
    pub fn took(&mut self, kind: LockKind)
        requires { count_of self.old kind < DEEPEST_COUNT }
        ensures after { self.new ≡ counted_up self.old kind }
        ensures step { TookAs self.old kind self.new }
        ensures within { IsWithin self.new }
    {
        match kind {
            LockKind::Shared => self.shared += 1,
            LockKind::Exclusive => self.exclusive += 1,
        }
    }

    /// Counts one hold of this kind less, and says what is to be done for it.
    pub fn leave(&mut self, kind: LockKind) -> Leave
        ensures value { result ≡ leave_of self.old kind }
        ensures after { self.new ≡ counted_down self.old kind }
        ensures step { LeavesAs self.old kind result self.new }
        ensures within { IsWithin self.new }
    {
        if self.count(kind) == 0 {
            return Leave::NotHeld;
        }
        match kind {
            LockKind::Shared => self.shared -= 1,
            LockKind::Exclusive => self.exclusive -= 1,
        }
        self.left(kind)
    }

    // What is to be done now that a hold of this kind was left.
    fn left(&self, kind: LockKind) -> Leave
        ensures { result ≡ left_of self.now kind }
    {
        match kind {
            LockKind::Shared if self.shared > 0 || self.exclusive > 0 => Leave::Counted,
            LockKind::Exclusive if self.exclusive > 0 => Leave::Counted,
            LockKind::Exclusive if self.shared > 0 => Leave::BackToShared,
            _ => Leave::GiveUp,
        }
    }
}

#[cfg(test)]
mod tests {
    use super::*;

    #[test]
    fn an_upgrade_gives_up_first_and_its_end_goes_back_to_shared(rt: HostRuntime) {
        let mut counts = LockCounts::new();
        assert_eq!(rt; counts.ask(LockKind::Shared), Ask::Take);
        counts.took(LockKind::Shared);
        assert_eq!(rt; counts.ask(LockKind::Shared), Ask::Counted);
        assert_eq!(rt; counts.ask(LockKind::Exclusive), Ask::GiveUpThenTake);
        counts.took(LockKind::Exclusive);
        assert_eq!(rt; counts.ask(LockKind::Exclusive), Ask::Counted);
        assert_eq!(rt; counts.count(LockKind::Exclusive), 1);
        assert_eq!(rt; counts.leave(LockKind::Exclusive), Leave::BackToShared);
        assert_eq!(rt; counts.leave(LockKind::Shared), Leave::GiveUp);
        assert_eq!(rt; counts.leave(LockKind::Shared), Leave::NotHeld);
    }

    #[test]
    fn the_1024th_hold_is_the_last(rt: HostRuntime) {
        let mut counts = LockCounts::new();
        for _ in 0..2000u32 {
            if counts.ask(LockKind::Exclusive) != Ask::TooDeep {
                counts.took(LockKind::Exclusive);
            }
        }
        assert_eq!(rt; counts.count(LockKind::Exclusive), 1024);
        assert_eq!(rt; counts.ask(LockKind::Shared), Ask::Counted);
        assert_eq!(rt; counts.leave(LockKind::Exclusive), Leave::Counted);
        assert_eq!(rt; counts.count(LockKind::Exclusive), 1023);
    }
}
