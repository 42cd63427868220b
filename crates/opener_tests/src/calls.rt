// Calls of a new opener, over a region in memory and over any other share.
ghost use Rattle.std.specs.Prelude.{◌≡◌, false, None, IfSome};
ghost use Rattle.opener.specs.Opener.{Tied};

use change_log::Call;
use expiring_map::{Bytes, Memory};
use handlers::{Handler, Steady, Strategy};
use opener::{Opener, OpenerCore, Step, Stop};
use region_words::Share;
use std::alloc::Global;
use std::mem;
use test_support::opened;

// An opener that has made no call.
pub(crate) fn opener_of<S: Share>(alloc: Global, share: &S) -> Option<Opener>
    requires alive { (S.state share.now).ended ≡ false }
    requires free { (S.state share.now).holds ≡ None }
    ensures { IfSome result (λ o. Tied o.core (S.state share.now)) }
{
    let handler: Box<dyn Handler + Send> = Box::new(
        alloc,
        Steady::new(alloc, Strategy::Leave),
    ).ok()?;
    Some(Opener::new(alloc, share.who(), handler))
}

// One without its handler.
pub(crate) fn core_of<S: Share>(alloc: Global, share: &S) -> OpenerCore
    requires alive { (S.state share.now).ended ≡ false }
    requires free { (S.state share.now).holds ≡ None }
    ensures { Tied result (S.state share.now) }
{
    OpenerCore::new(alloc, share.who())
}

// How a call came out.
#[derive(Clone, Copy, Debug, PartialEq, Eq)]
pub(crate) enum End {
    NotBegun,
    GoesOn,
    Answered,
    Stopped(Stop),
}

pub(crate) fn end_of(step: Step) -> End {
    match step {
        Step::Answered(_) => End::Answered,
        Step::Stopped(stop) => End::Stopped(stop),
        _ => End::GoesOn,
    }
}

// The steps of the call that runs, to its end or to so many.
pub(crate) fn finish<S: Share>(opener: &mut Opener, share: &mut S, most: u32) -> Step
    requires { Tied opener.old.core (S.state share.old) }
    ensures { Tied opener.new.core (S.state share.new) }
{
    for _ in 0..most {
        let step = opener.step(share);
        match step {
            Step::Going => {}
            _ => return step,
        }
    }
    Step::Going
}

// A whole call.
pub(crate) fn ask<S: Share>(opener: &mut Opener, share: &mut S, call: Call) -> End
    requires { Tied opener.old.core (S.state share.old) }
    ensures { Tied opener.new.core (S.state share.new) }
{
    match opener.begin(share, call, 100) {
        Ok(()) => end_of(finish(opener, share, 4000)),
        Err(_) => End::NotBegun,
    }
}

// A whole call of an opener without its handler.
pub(crate) fn ask_core<S: Share>(core: &mut OpenerCore, share: &mut S, call: Call) -> End
    requires { Tied core.old (S.state share.old) }
    ensures { Tied core.new (S.state share.new) }
{
    let Ok(()) = core.begin(share, call, 100) else {
        return End::NotBegun;
    };
    for _ in 0..4000 {
        let step = core.step(share);
        match step {
            Step::Going => {}
            _ => return end_of(step),
        }
    }
    End::GoesOn
}

// The end of a new opener's first call, over a seat at these files whose calls of the listed numbers fail.
pub(crate) fn first_end(
    alloc: Global,
    body: &[u8],
    meta: &[u8],
    fails: &[u64],
    call: Call,
) -> Option<End> {
    let mut seat = opened(alloc, body, meta, fails)?;
    let mut opener = opener_of(alloc, &seat)?;
    let end = ask(&mut opener, &mut seat, call);
    mem::drop(opener);
    Some(end)
}

pub(crate) fn get(alloc: Global) -> Result<Call, Memory> {
    Ok(Call::Get {
        key: Bytes::copy_of(alloc, b"k")?,
    })
}

pub(crate) fn put(alloc: Global, seconds: u32) -> Result<Call, Memory> {
    Ok(Call::Put {
        key: Bytes::copy_of(alloc, b"k")?,
        value: Bytes::copy_of(alloc, b"\x01d")?,
        seconds,
    })
}
