// The workers of a race at one desk, one after another.
ghost use Rattle.std.specs.Prelude.{◌≡◌, [], IfSome, None};
ghost use Rattle.opener.specs.Begins.{call_refusal};
ghost use Rattle.desk_tests.specs.Desks.{MayRace};
ghost use Rattle.race_core.specs.Calls.{AreAllowed};

use crate::desks::desk_of_two;
use change_log::{Call, Reply};
use handlers::{Handler, Steady, Strategy};
use race_core::{Done, Job, OpenGate, TimedCall, work};
use script_lang::Outcome;
use std::alloc::Global;
use std::mem;
use std::sync::Wait;
use step_desk::{Desk, Pass};

// A handler that was not asked or told anything yet.
fn handler(alloc: Global) -> Option<Box<dyn Handler + Send>>
    ensures { IfSome result (λ h. (told h ≡ []) × (changes_told h ≡ [])) }
{
    let handler: Box<dyn Handler + Send> = Box::new(
        alloc,
        Steady::new(alloc, Strategy::Leave),
    ).ok()?;
    Some(handler)
}

// The calls of a worker that makes one.
fn one_call(alloc: Global, call: Call) -> Option<Vec<TimedCall>>
    requires { call_refusal call 0 ≡ None }
    ensures { IfSome result (λ calls. AreAllowed 0 calls.items) }
{
    let mut calls = Vec::new(alloc);
    calls
        .push(TimedCall {
            line: 1,
            now: 100,
            call,
        })
        .ok()?;
    Some(calls)
}

// What a worker's one call was replied, if the worker made it and it was answered.
fn reply_of(done: &Done) -> Option<&Reply> {
    if done.ceased.is_some() {
        return None;
    }
    match done.outcomes.first()? {
        Outcome::Answered(answer) => Some(&answer.reply),
        _ => None,
    }
}

// The passes of openers 1 and 2 at a new desk.
fn passes_of_two(alloc: Global) -> Option<(Desk, (Pass, Pass))>
    ensures { IfSome result (λ r. MayRace r.0 r.1.0 × MayRace r.0 r.1.1) }
{
    let (desk, pass) = desk_of_two(alloc, &[])?;
    let mut seat = desk.seat(pass);
    let second = seat.split(2);
    let first = seat.into_pass();
    Some((desk, (first, second)))
}

// Whether a worker that clears the store of one pair, and then another that counts the pairs, make their calls.
fn both_work<R: Wait>(rt: &R, alloc: Global) -> Option<bool> {
    let clear = one_call(alloc, Call::Clear)?;
    let count = one_call(alloc, Call::Count)?;
    let first_handler = handler(alloc)?;
    let second_handler = handler(alloc)?;
    let (desk, (first, second)) = passes_of_two(alloc)?;
    let first = Job {
        pass: first,
        handler: first_handler,
        calls: clear,
    };
    let second = Job {
        pass: second,
        handler: second_handler,
        calls: count,
    };
    let cleared = work(rt, alloc, &OpenGate, &desk, first);
    let counted = work(rt, alloc, &OpenGate, &desk, second);
    let is_done = matches!(reply_of(&cleared), Some(Reply::Done));
    let is_empty = matches!(reply_of(&counted), Some(Reply::Count(0)));
    mem::drop(cleared);
    mem::drop(counted);
    Some(is_done && is_empty)
}

#[test]
fn one_worker_sees_what_another_did_before(rt: HostRuntime) {
    assert_eq!(rt; both_work(&rt, rt.alloc()), Some(true));
}
