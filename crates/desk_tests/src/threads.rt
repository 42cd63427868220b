// Openers on threads, each with its own seat at one desk.
ghost use Rattle.std.specs.Prelude.{◌≡◌};
ghost use Rattle.step_desk.specs.Passes.{StaysAt};
ghost use Rattle.desk_tests.specs.Desks.{MayWork};

use crate::desks::desk_of_two;
use crate::openers::size_of_answer;
use change_log::Call;
use expiring_map::{Bytes, Memory};
use region_words::Share;
use std::alloc::Global;
use std::thread;
use std::thread::Threads;
use step_desk::{Desk, Pass, a_seat_stays_at_its_desk};

#[derive(Drop)]
struct Job {
    pass: Pass,
    call: Call,
}

#[derive(Drop)]
struct Done {
    pass: Pass,
    answered: bool,
}

fn put(alloc: Global, key: &[u8]) -> Result<Call, Memory> {
    Ok(Call::Put {
        key: Bytes::copy_of(alloc, key)?,
        value: Bytes::copy_of(alloc, b"\x01x")?,
        seconds: 0,
    })
}

// The call of a new opener at the seat of a pass.
fn work(alloc: Global, desk: &Desk, job: Job) -> Done
    requires { MayWork desk.now job.pass }
    ensures { StaysAt job.pass result.pass }
{
    a_seat_stays_at_its_desk();
    let Job { pass, call } = job;
    let mut seat = desk.seat(pass);
    let size = size_of_answer(alloc, &mut seat, call);
    Done {
        pass: seat.into_pass(),
        answered: size.is_some(),
    }
}

// How many changes two puts on two threads leave, if both are answered.
#[tactic(auto, using(crate::proofs::Free::none_at_first))]
fn changes_of_two<R: Threads + Sync>(rt: &R, alloc: Global) -> Option<u32> {
    let own = put(alloc, b"a").ok()?;
    let other = put(alloc, b"b").ok()?;
    let (desk, pass) = desk_of_two(alloc, &[])?;
    let mut seat = desk.seat(pass);
    let other = Job {
        pass: seat.split(2),
        call: other,
    };
    let own = Job {
        pass: seat.into_pass(),
        call: own,
    };
    let (one, two) = thread::join(
        rt,
        || -> Done
            requires { MayWork desk own.pass }
            ensures { StaysAt own.pass result.pass }
        { work(alloc, &desk, own) },
        || -> Done
            requires { MayWork desk other.pass }
            ensures { StaysAt other.pass result.pass }
        { work(alloc, &desk, other) },
    );
    let answered = one.answered && two.answered;
    let mut seat = desk.seat(one.pass);
    seat.join(two.pass);
    let changes = seat.changes();
    let pass = seat.into_pass();
    desk.close(pass);
    if answered { Some(changes) } else { None }
}

#[test]
fn two_openers_on_threads_leave_both_changes(rt: HostRuntime) {
    for _ in 0..20u32 {
        assert_eq!(rt; changes_of_two(&rt, rt.alloc()), Some(2));
    }
}
