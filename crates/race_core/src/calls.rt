// The calls of one opener at a share, made one after another.
ghost use Rattle.std.specs.Prelude.{◌≡◌, [], ◌++◌, ◌∷◌, ℕ, List, IfOk, IfErr, IfSome, OnOk, Some, None, false, true};
ghost use Rattle.change_log.specs.declared.call.Answer.{Answer};
ghost use Rattle.opener.specs.Begins.{call_refusal};
ghost use Rattle.opener.specs.Calls.{holds_after};
ghost use Rattle.opener.specs.Opener.{Tied, stop_found};
ghost use Rattle.opener.specs.Settles.{AreSettled};
ghost use Rattle.opener.specs.declared.work.Work.TheVariants.{Idle};
ghost use Rattle.region_words.specs.Share.{IsSameShare};
ghost use Rattle.region_words.specs.Told.{OnTold, OnBoth};
ghost use Rattle.script_lang.specs.Parts.{answers_in};
ghost use Rattle.script_lang.specs.Played.{reason_said};
ghost use Rattle.script_lang.specs.declared.outcome.Outcome.TheVariants as Outcome;
ghost use Rattle.script_lang.specs.declared.outcome.Reason.{Reason as Said};
ghost use Rattle.race_core.specs.declared.calls.Trouble.TheVariants as Trouble;
ghost use Rattle.race_core.specs.Calls.{AreAllowed, AreOutcomes, IsMaking, IsOutcomeOf, IsTroubleOf, MayFail, StartsAs};

use crate::entrant::TimedCall;
use crate::gate::Gate;
use crossbeam_utils::Backoff;
use opener::{Opener, Step, Stop};
use region_words::Share;
use script_lang::{Outcome, Reason};
use std::mem;
use std::sync::Wait;

/// Why an opener makes no further call.
#[derive(Clone, Copy, Debug, PartialEq, Eq)]
pub enum Trouble {
    /// Memory was refused.
    Memory,
    /// The journal has no place for its events.
    JournalFull,
    /// The region shows no whole image, and repairs aren't there yet.
    NotWhole,
    /// A call on the share failed.
    Fault,
}

/// The call of this line was neither answered nor stopped for a reason that is printed.
#[derive(Clone, Copy, Debug, PartialEq, Eq)]
pub struct Ceased {
    pub line: usize,
    pub why: Trouble,
}

/// Makes the calls in their order, and notes what each came to. The gate is asked before each.
pub(crate) fn make_calls<R: Wait, G: Gate, S: Share>(
    rt: &R,
    gate: &G,
    opener: &mut Opener,
    share: &mut S,
    calls: Vec<TimedCall>,
    outcomes: &mut Vec<Outcome>,
) -> Result<(), Ceased>
    requires tied { Tied opener.old.core (S.state share.old) }
    requires idle { opener.old.core.work ≡ Idle }
    requires allowed { AreAllowed opener.old.core.holds calls.items }
    requires none { outcomes.old.items ≡ [] }
    ensures tied { Tied opener.new.core (S.state share.new) }
    ensures same { IsSameShare (S.state share.old) (S.state share.new) }
    ensures start { OnBoth (S.state share.old).told (S.state share.new).told StartsAs }
    ensures outcomes { OnOk result (AreOutcomes opener.old.core.who calls.items outcomes.new.items) }
    ensures fault { IfErr result (λ ceased. ceased.why ≡ Trouble.Fault → MayFail (S.state share.old)) }
    ensures idle { OnOk result (opener.new.core.work ≡ Idle) }
    ensures settled { OnOk result (OnTold (S.state share.old).told (AreSettled opener.old.core []) →
        OnTold (S.state share.new).told (AreSettled opener.new.core (answers_in outcomes.new.items))) }
{
    let mut entered = 0u32;
    for asked in calls {
        entered = entered.saturating_add(1);
        gate.enter(share.who(), entered);
        let line = asked.line;
        match make(rt, opener, share, asked) {
            Ok(outcome) => {
                if let Err(why) = note(outcomes, outcome) {
                    return Err(Ceased { line, why });
                }
            }
            Err(why) => return Err(Ceased { line, why }),
        }
    }
    Ok(())
}

// Puts what a call came to behind the others.
fn note(outcomes: &mut Vec<Outcome>, outcome: Outcome) -> Result<(), Trouble>
    ensures ok { OnOk result (outcomes.new.items ≡ outcomes.old.items ++ outcome ∷ []) }
    ensures err { IfErr result (λ why. why ≡ Trouble.Memory) }
{
    match outcomes.push(outcome) {
        Ok(()) => Ok(()),
        Err(_) => Err(Trouble::Memory),
    }
}

// Makes a call to its end. It is tried again where another has the turn or the lock.
fn make<R: Wait, S: Share>(
    rt: &R,
    opener: &mut Opener,
    share: &mut S,
    asked: TimedCall,
) -> Result<Outcome, Trouble>
    requires tied { Tied opener.old.core (S.state share.old) }
    requires idle { opener.old.core.work ≡ Idle }
    requires may { call_refusal asked.call opener.old.core.holds ≡ None }
    ensures tied { Tied opener.new.core (S.state share.new) }
    ensures same { IsSameShare (S.state share.old) (S.state share.new) }
    ensures start { OnBoth (S.state share.old).told (S.state share.new).told StartsAs }
    ensures outcome { IfOk result (IsOutcomeOf opener.old.core.who asked) }
    ensures fault { IfErr result (λ why. why ≡ Trouble.Fault → MayFail (S.state share.old)) }
    ensures idle { OnOk result (opener.new.core.work ≡ Idle) }
    ensures holds { OnOk result (opener.new.core.holds ≡ holds_after asked.call opener.old.core.holds) }
    ensures settled { IfOk result (λ o. (own : List Answer) → OnTold (S.state share.old).told (AreSettled opener.old.core own) →
        OnTold (S.state share.new).told (AreSettled opener.new.core (own ++ answers_in (o ∷ [])))) }
{
    let who = share.who();
    begin(opener, share, asked);
    let backoff = Backoff::new();
    for _ in rt.forever() {
        match opener.step(share) {
            Step::Idle => unreachable!(),
            Step::Going => {}
            Step::Again | Step::Blocked(_) => backoff.snooze(),
            Step::Answered(answer) => return Ok(Outcome::Answered(answer)),
            Step::Stopped(stop) => return outcome_of(who, stop),
        }
    }
    unreachable!()
}

// Begins a call that may begin.
fn begin<S: Share>(opener: &mut Opener, share: &S, asked: TimedCall)
    requires tied { Tied opener.old.core (S.state share.now) }
    requires idle { opener.old.core.work ≡ Idle }
    requires may { call_refusal asked.call opener.old.core.holds ≡ None }
    ensures tied { Tied opener.new.core (S.state share.now) }
    ensures making { IsMaking asked opener.old.core.holds opener.new.core }
    ensures unstopped { stop_found opener.new.core.work ≡ None }
    ensures settled { (own : List Answer) → OnTold (S.state share.now).told (AreSettled opener.old.core own) → OnTold (S.state share.now).told (AreSettled opener.new.core own) }
{
    let TimedCall { line: _, now, call } = asked;
    match opener.begin(share, call, now) {
        Ok(()) => {}
        Err(_) => unreachable!(),
    }
}

// What a call that was stopped comes to.
fn outcome_of(who: u32, stop: Stop) -> Result<Outcome, Trouble>
    ensures ok { IfOk result (λ o. (r : Said) × (o ≡ Outcome.Stopped who r) × (reason_said stop ≡ Some r)) }
    ensures err { IfErr result (IsTroubleOf stop) }
{
    let reason = match stop {
        Stop::Full { need } => Reason::Full { need },
        Stop::SequenceEnd => Reason::SequenceEnd,
        Stop::ExpiryOff => Reason::ExpiryOff,
        Stop::ExpiryRange => Reason::ExpiryRange,
        Stop::AlreadyOn => Reason::AlreadyOn,
        Stop::AlreadyOff => Reason::AlreadyOff,
        Stop::Memory => return Err(Trouble::Memory),
        Stop::JournalFull => return Err(Trouble::JournalFull),
        Stop::NotWhole(_) | Stop::Version(_) | Stop::Flags(_) => return Err(Trouble::NotWhole),
        Stop::Fault => return Err(Trouble::Fault),
    };
    Ok(Outcome::Stopped { who, reason })
}
