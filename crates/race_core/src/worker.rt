// A worker: an opener at its seat, from its first call to its death.
ghost use Rattle.std.specs.Prelude.{◌≡◌, ◌≢◌, [], IfSome, None, false, true};
ghost use Rattle.opener.specs.Opener.{Tied};
ghost use Rattle.opener.specs.declared.work.Work.TheVariants.{Idle};
ghost use Rattle.region_words.specs.Share.{IsSameShare};
ghost use Rattle.region_words.specs.Told.{OnBoth, OnTold};
ghost use Rattle.script_lang.specs.Parts.{answers_in};
ghost use Rattle.step_desk.specs.Passes.{StaysAt, state_of};
ghost use Rattle.race_core.specs.Calls.{AreAllowed, AreOutcomes, MayFail, StartsAs};
ghost use Rattle.race_core.specs.declared.calls.Trouble.TheVariants as Trouble;
ghost use Rattle.race_core.specs.Worker.{HasChangedNothing, HasHappened, IsSettledAt, MayWork, RestsFor, history_of};

use crate::calls::{Ceased, make_calls};
use crate::entrant::TimedCall;
use crate::gate::Gate;
use crossbeam_utils::Backoff;
use handlers::Handler;
use opener::Opener;
use region_words::Share;
use script_lang::Outcome;
use std::alloc::Global;
use std::sync::Wait;
use step_desk::{Desk, Pass, a_seat_stays_at_its_desk};

/// What a worker is given: the pass of its opener, a handler that was asked and told nothing, and the calls to make.
#[derive(Drop)]
pub struct Job {
    pub pass: Pass,
    pub handler: Box<dyn Handler + Send>,
    pub calls: Vec<TimedCall>,
}

/// What a worker leaves: the pass, what its calls came to, and which of them was the last if not all were made.
#[derive(Drop)]
pub struct Done {
    pub pass: Pass,
    pub outcomes: Vec<Outcome>,
    pub ceased: Option<Ceased>,
}

/// An opener's life at the seat of its pass.
pub fn work<R: Wait, G: Gate>(rt: &R, alloc: Global, gate: &G, desk: &Desk, job: Job) -> Done
    requires desk { job.pass.table ≡ desk.now.table }
    requires pass { MayWork job.pass }
    requires fresh { (told job.handler ≡ []) × (changes_told job.handler ≡ []) }
    requires allowed { AreAllowed 0 job.calls.items }
    ensures same { StaysAt job.pass result.pass }
    ensures start { result.pass.view.about.start ≡ job.pass.view.about.start }
    ensures ended { ((state_of result.pass).ended ≡ true) × ((state_of result.pass).holds ≡ None) }
    ensures lawful { HasHappened (history_of result.pass) }
    ensures outcomes { result.ceased ≡ None → AreOutcomes job.pass.view.who job.calls.items result.outcomes.items }
    ensures fault { IfSome result.ceased (λ ceased. ceased.why ≡ Trouble.Fault → job.pass.view.about.failing.listed ≢ []) }
    ensures settled { result.ceased ≡ None → IsSettledAt job.pass.view.who (answers_in result.outcomes.items) (history_of result.pass) }
{
    a_seat_stays_at_its_desk();
    let Job {
        pass,
        handler,
        calls,
    } = job;
    let mut seat = desk.seat(pass);
    let mut outcomes = Vec::new(alloc);
    let ceased = live(rt, alloc, gate, &mut seat, handler, calls, &mut outcomes);
    Done {
        pass: seat.into_pass(),
        outcomes,
        ceased,
    }
}

// An opener's life at a share that was not used yet.
fn live<R: Wait, G: Gate, S: Share>(
    rt: &R,
    alloc: Global,
    gate: &G,
    share: &mut S,
    handler: Box<dyn Handler + Send>,
    calls: Vec<TimedCall>,
    outcomes: &mut Vec<Outcome>,
) -> Option<Ceased>
    requires alive { (S.state share.old).ended ≡ false }
    requires free { (S.state share.old).holds ≡ None }
    requires quiet { OnTold (S.state share.old).told (HasChangedNothing (S.state share.old).who) }
    requires fresh { (told handler ≡ []) × (changes_told handler ≡ []) }
    requires allowed { AreAllowed 0 calls.items }
    requires none { outcomes.old.items ≡ [] }
    ensures same { IsSameShare (S.state share.old) (S.state share.new) }
    ensures start { OnBoth (S.state share.old).told (S.state share.new).told StartsAs }
    ensures ended { ((S.state share.new).ended ≡ true) × ((S.state share.new).holds ≡ None) }
    ensures lawful { OnTold (S.state share.new).told HasHappened }
    ensures outcomes { result ≡ None → AreOutcomes (S.state share.old).who calls.items outcomes.new.items }
    ensures fault { IfSome result (λ ceased. ceased.why ≡ Trouble.Fault → MayFail (S.state share.old)) }
    ensures settled { result ≡ None → OnTold (S.state share.new).told (IsSettledAt (S.state share.old).who (answers_in outcomes.new.items)) }
{
    let mut opener = opener_of(alloc, share, handler);
    let made = make_calls(rt, gate, &mut opener, share, calls, outcomes);
    end(rt, opener, share);
    match made {
        Ok(()) => None,
        Err(ceased) => Some(ceased),
    }
}

// The end of an opener. It is tried again where another has the turn.
fn end<R: Wait, S: Share>(rt: &R, opener: Opener, share: &mut S)
    requires { Tied opener.core (S.state share.old) }
    ensures same { IsSameShare (S.state share.old) (S.state share.new) }
    ensures start { OnBoth (S.state share.old).told (S.state share.new).told StartsAs }
    ensures ended { ((S.state share.new).ended ≡ true) × ((S.state share.new).holds ≡ None) }
    ensures rests { opener.core.work ≡ Idle → OnBoth (S.state share.old).told (S.state share.new).told (RestsFor (S.state share.old).who) }
    ensures lawful { OnTold (S.state share.new).told HasHappened }
{
    let backoff = Backoff::new();
    let mut living = opener;
    for _ in rt.forever() {
        match die(living, share) {
            None => return,
            Some(back) => living = back,
        }
        backoff.snooze();
    }
    unreachable!()
}

// A try to die. The opener is handed back where another has the turn.
fn die<S: Share>(opener: Opener, share: &mut S) -> Option<Opener>
    requires { Tied opener.core (S.state share.old) }
    ensures same { IsSameShare (S.state share.old) (S.state share.new) }
    ensures start { OnBoth (S.state share.old).told (S.state share.new).told StartsAs }
    ensures ended { result ≡ None → ((S.state share.new).ended ≡ true) × ((S.state share.new).holds ≡ None) }
    ensures rests { opener.core.work ≡ Idle → OnBoth (S.state share.old).told (S.state share.new).told (RestsFor (S.state share.old).who) }
    ensures lawful { result ≡ None → OnTold (S.state share.new).told HasHappened }
    ensures back { IfSome result (λ o. (o.core ≡ opener.core) × Tied o.core (S.state share.new)) }
{
    match opener.die(share, None) {
        Ok(()) => None,
        Err(back) => Some(back),
    }
}

// An opener that has made no call.
fn opener_of<S: Share>(alloc: Global, share: &S, handler: Box<dyn Handler + Send>) -> Opener
    requires alive { (S.state share.now).ended ≡ false }
    requires free { (S.state share.now).holds ≡ None }
    requires fresh { (told handler ≡ []) × (changes_told handler ≡ []) }
    ensures core { result.core ≡ record { who = (S.state share.now).who; image = None; holds = 0; work = Idle } }
    ensures tied { Tied result.core (S.state share.now) }
{
    Opener::new(alloc, share.who(), handler)
}
