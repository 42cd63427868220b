// The table of holders.
ghost use Rattle.std.specs.Prelude.{◌≡◌, ◌↔◌, ℕ, ◌<◌, ◌≤◌, false, true, IfSome, IfNone};
ghost use Rattle.lock_rules.specs.Locks.{IsSound, holds, unlocked, MayTake, with_lock, without_holder, IsLeastAgainst};
ghost use Rattle.lock_rules.specs.Holders.{AreHolders, holders_of};
ghost use Rattle.lock_rules.specs.declared.limits.TheConstants.{MOST_OPENERS};
ghost use Rattle.std.specs.FinSet as set;

use crate::limits::MOST_OPENERS;
use std::marker::Model;

/// The two kinds of lock.
#[derive(Clone, Copy, Debug, PartialEq, Eq)]
pub enum LockKind {
    Shared,
    Exclusive,
}

/// The answer to a try: taken, or the least holder against it.
#[derive(Clone, Copy, Debug, PartialEq, Eq)]
pub enum Tried {
    Taken,
    Busy(u32),
}

/// The holders, numbers 1 to `MOST_OPENERS`.
#[derive(Drop)]
pub struct LockTable {
    // bit h - 1 says whether h holds shared
    shared: u64,
    exclusive: Option<u32>,
}

impl Model for LockTable {
    ghost use Rattle.lock_rules.specs.Locks.{Locks, locks_code};
    ghost use Rattle.lock_rules.specs.Holders.{holders_of, IsApart};

    ghost Value = { Locks };

    ghost coded = { locks_code };

    ghost view = { λ a. record { shared = holders_of a.shared; exclusive = a.exclusive } };

    ghost invariant = { λ a. IsApart a.shared a.exclusive };
}

impl LockTable {
    /// Nobody holds the lock.
    pub fn new() -> LockTable
        ensures value { result ≡ unlocked }
        ensures sound { IsSound result }
        ensures within { AreHolders result }
    {
        LockTable {
            shared: 0,
            exclusive: None,
        }
    }

    /// Takes the lock for an opener that holds nothing, unless another stands against it.
    pub fn try_take(&mut self, who: u32, kind: LockKind) -> Tried
        requires least { 1 ≤ who }
        requires most { who ≤ MOST_OPENERS }
        requires free { holds self.old who ≡ false }

        ensures taken { (result ≡ Tried.Taken) ↔ MayTake self.old who kind }
        ensures busy { (h : ℕ) → (result ≡ Tried.Busy h) ↔ IsLeastAgainst self.old who kind h }
        ensures after { result ≡ Tried.Taken → self.new ≡ with_lock self.old who kind }
        ensures same { (h : ℕ) → result ≡ Tried.Busy h → self.new ≡ self.old }
        ensures sound { IsSound self.new }
        ensures within { AreHolders self.new }
    {
        if let Some(holder) = self.against(kind) {
            return Tried::Busy(holder);
        }
        match kind {
            LockKind::Shared => self.shared = with_bit(self.shared, who),
            LockKind::Exclusive => self.exclusive = Some(who),
        }
        Tried::Taken
    }

    /// Whether this opener holds the lock.
    pub fn holds(&self, who: u32) -> bool
        ensures { result ≡ holds self.now who }
    {
        self.exclusive == Some(who) || has_bit(self.shared, who)
    }

    /// Gives up what this holder holds.
    pub fn give_up(&mut self, who: u32)
        requires { holds self.old who ≡ true }
        ensures after { self.new ≡ without_holder self.old who }
        ensures sound { IsSound self.new }
        ensures within { AreHolders self.new }
    {
        self.died(who);
    }

    /// Takes away what this opener holds, if anything.
    pub fn died(&mut self, who: u32)
        ensures after { self.new ≡ without_holder self.old who }
        ensures sound { IsSound self.new }
        ensures within { AreHolders self.new }
    {
        self.shared = without_bit(self.shared, who);
        if self.exclusive == Some(who) {
            self.exclusive = None;
        }
    }

    // The least holder against a try by one that holds nothing.
    fn against(&self, kind: LockKind) -> Option<u32>
        ensures some { IfSome result (λ h. (who : ℕ) → holds self.now who ≡ false → IsLeastAgainst self.now who kind h) }
        ensures none { IfNone result ((who : ℕ) → holds self.now who ≡ false → MayTake self.now who kind) }
    {
        match kind {
            LockKind::Shared => self.exclusive,
            LockKind::Exclusive if self.shared != 0 => Some(least_of(self.shared)),
            LockKind::Exclusive => self.exclusive,
        }
    }
}

fn has_bit(bits: u64, who: u32) -> bool
    ensures { result ≡ set.contains (holders_of bits) who }
{
    if 1 <= who && who <= MOST_OPENERS {
        (bits >> (who - 1)) & 1 == 1
    } else {
        false
    }
}

// These bits and that of one more holder.
fn with_bit(bits: u64, who: u32) -> u64
    requires least { 1 ≤ who }
    requires most { who ≤ MOST_OPENERS }
    ensures { holders_of result ≡ set.insert (holders_of bits) who }
{
    bits | (1 << (who - 1))
}

// These bits without that of a holder, if it is one.
fn without_bit(bits: u64, who: u32) -> u64
    ensures after { holders_of result ≡ set.remove (holders_of bits) who }
    ensures none { bits ≡ 0 → result ≡ 0 }
{
    if 1 <= who && who <= MOST_OPENERS {
        bits & !(1 << (who - 1))
    } else {
        bits
    }
}

// The least of the holders whose bits are set.
fn least_of(bits: u64) -> u32
    requires { 0 < bits }
    ensures held { set.contains (holders_of bits) result ≡ true }
    ensures least { (h : ℕ) → set.contains (holders_of bits) h ≡ true → result ≤ h }
{
    bits.trailing_zeros() + 1
}

#[cfg(test)]
mod tests {
    use super::*;

    // The answer to a try, where the opener holds nothing.
    fn tried(table: &mut LockTable, who: u32, kind: LockKind) -> Option<Tried>
        requires least { 1 ≤ who }
        requires most { who ≤ MOST_OPENERS }
    {
        if table.holds(who) {
            return None;
        }
        Some(table.try_take(who, kind))
    }

    #[test]
    fn the_least_holder_is_named_and_a_death_frees_its_lock(rt: HostRuntime) {
        let mut table = LockTable::new();
        assert_eq!(rt; tried(&mut table, 1, LockKind::Shared), Some(Tried::Taken));
        assert_eq!(rt; tried(&mut table, 2, LockKind::Shared), Some(Tried::Taken));
        assert_eq!(rt; tried(&mut table, 2, LockKind::Exclusive), None);
        assert_eq!(rt;
            tried(&mut table, 3, LockKind::Exclusive),
            Some(Tried::Busy(1))
        );
        table.died(1);
        assert_eq!(rt;
            tried(&mut table, 3, LockKind::Exclusive),
            Some(Tried::Busy(2))
        );
        table.died(2);
        assert_eq!(rt;
            tried(&mut table, 3, LockKind::Exclusive),
            Some(Tried::Taken)
        );
        assert_eq!(rt;
            tried(&mut table, 64, LockKind::Shared),
            Some(Tried::Busy(3))
        );
        assert!(rt; table.holds(3));
        table.give_up(3);
        assert_eq!(rt;
            tried(&mut table, 64, LockKind::Exclusive),
            Some(Tried::Taken)
        );
    }

    #[test]
    fn all_64_openers_may_share(rt: HostRuntime) {
        let mut table = LockTable::new();
        for who in 1..65u32 {
            assert_eq!(rt;
                tried(&mut table, who, LockKind::Shared),
                Some(Tried::Taken)
            );
        }
        for who in 1..64u32 {
            table.died(who);
            let answer = tried(&mut table, who, LockKind::Exclusive);
            assert_eq!(rt; answer, Some(Tried::Busy(who + 1)));
        }
        table.died(65);
        table.died(0);
        table.died(64);
        assert_eq!(rt;
            tried(&mut table, 64, LockKind::Exclusive),
            Some(Tried::Taken)
        );
    }
}
