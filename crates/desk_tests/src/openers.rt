// Openers at the seats of one desk.
ghost use Rattle.std.specs.Prelude.{◌≡◌, false, None, IfSome};
ghost use Rattle.opener.specs.Opener.{Tied};
ghost use Rattle.region_words.specs.Share.{IsSameShare};

use crate::desks::desk_of_two;
use change_log::{Answer, Call, Reply};
use crossbeam_utils::Backoff;
use expiring_map::{Bytes, Memory};
use handlers::{Handler, Steady, Strategy};
use opener::{Opener, Step};
use region_words::{Peek, Share};
use std::alloc::Global;
use std::mem;
use step_desk::a_seat_stays_at_its_desk;

// An opener that has made no call.
fn opener_of<S: Share>(alloc: Global, share: &S) -> Option<Opener>
    requires alive { (S.state share.now).ended ≡ false }
    requires free { (S.state share.now).holds ≡ None }
    ensures { IfSome result (λ o. Tied o.core (S.state share.now)) }
{
    let handler: Box<dyn Handler + Send> = Box::new(
        alloc,
        Steady::new(alloc, Strategy::Leave),
    ).ok()?;
    Some(Opener::new(alloc, share.who(), handler))
}

// The answer of a whole call, if it comes in so many steps. It is tried again where another has the turn or the lock.
fn ask<S: Share>(opener: &mut Opener, share: &mut S, call: Call) -> Option<Answer>
    requires { Tied opener.old.core (S.state share.old) }
    ensures tied { Tied opener.new.core (S.state share.new) }
    ensures same { IsSameShare (S.state share.old) (S.state share.new) }
{
    if let Err(refused) = opener.begin(share, call, 100) {
        mem::drop(refused);
        return None;
    }
    let backoff = Backoff::new();
    for _ in 0..10_000_000u32 {
        match opener.step(share) {
            Step::Going => {}
            Step::Again | Step::Blocked(_) => backoff.snooze(),
            Step::Answered(answer) => return Some(answer),
            _ => return None,
        }
    }
    None
}

// How many bytes the answer of a new opener's call has: those of a value, and none where it is done.
pub(crate) fn size_of_answer<S: Share>(alloc: Global, share: &mut S, call: Call) -> Option<usize>
    requires alive { (S.state share.old).ended ≡ false }
    requires free { (S.state share.old).holds ≡ None }
    ensures { IsSameShare (S.state share.old) (S.state share.new) }
{
    let mut opener = opener_of(alloc, share)?;
    let answer = ask(&mut opener, share, call);
    mem::drop(opener);
    size_of_reply(&answer?.reply)
}

fn size_of_reply(reply: &Reply) -> Option<usize> {
    match reply {
        Reply::Value(value) => Some(value.as_slice().len()),
        Reply::Done => Some(0),
        _ => None,
    }
}

fn get(alloc: Global) -> Result<Call, Memory> {
    Ok(Call::Get {
        key: Bytes::copy_of(alloc, b"k")?,
    })
}

// Puts a value of 5,000 bytes, for which the file is too short.
fn put(alloc: Global) -> Result<Call, Memory> {
    Ok(Call::Put {
        key: Bytes::copy_of(alloc, b"k")?,
        value: Bytes::of_vec(Vec::from_elem(alloc, 7u8, 5000)?),
        seconds: 0,
    })
}

// What comes of a put by opener 1 and a get by opener 2.
#[derive(Clone, Copy, Debug, PartialEq, Eq)]
struct Run {
    put: Option<usize>,
    got: Option<usize>,
    changes: u32,
    file: usize,
}

#[tactic(auto, using(crate::proofs::Free::none_at_first))]
fn put_and_get(alloc: Global) -> Option<Run> {
    let (desk, pass) = desk_of_two(alloc, &[])?;
    let put = put(alloc).ok()?;
    let get = get(alloc).ok()?;
    a_seat_stays_at_its_desk();
    let mut first = desk.seat(pass);
    let mut second = desk.seat(first.split(2));
    let put = size_of_answer(alloc, &mut first, put);
    let got = size_of_answer(alloc, &mut second, get);
    first.join(second.into_pass());
    let changes = first.changes();
    let pass = first.into_pass();
    let region = desk.close(pass);
    Some(Run {
        put,
        got,
        changes,
        file: region.data_bytes().len(),
    })
}

#[test]
fn what_one_opener_puts_another_gets(rt: HostRuntime) {
    assert_eq!(rt;
        put_and_get(rt.alloc()),
        Some(Run {
            put: Some(0),
            got: Some(5000),
            changes: 2,
            file: 65_536,
        })
    );
}
