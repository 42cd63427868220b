// Openers by their numbers, and what they do to the region that they share.
ghost use Rattle.std.specs.Prelude.{true, ◌≡◌, ◌≢◌, ◌+◌, ◌++◌, ◌∷◌, [], ◌<◌, ◌≤◌, Bool, None, IfErr, IfOk, IfSome, OnErr, OnOk, false, length, slice_get, slice_set, vec_capacity, vec_len};
ghost use Rattle.region_words.specs.Local.{seat_state};
ghost use Rattle.opener.specs.Deaths.{DeathEnds, DeathSettles, DiesAt};
ghost use Rattle.opener.specs.Opener.{Tied, is_ended};
ghost use Rattle.opener.specs.Settles.{answers_by};
ghost use Rattle.opener.specs.State.{OpenerState};
ghost use Rattle.opener.specs.declared.work.Work.TheVariants as Work;
ghost use Rattle.world.specs.World.{IsWorld, Lives, WorldState, calls_running};
ghost use Rattle.world.specs.Moves.{Begun, Dies, HoldsAreKept, IfAnswered, IsNotBegun, IsNotOpened, IsSaid, Moves, Opens, new_opener, stop_of_admission, world_of};

use crate::moves::Moved;
use crate::stops::{OpenStop, WorldStop};
use change_log::{Answer, Call};
use opener::{OpenerCore, Step};
use region_words::{AdmitStop, LocalSeat, Share};
use std::alloc::Global;
use std::mem;

/// How many openers a world takes.
pub const MOST_OPENERS: usize = lock_rules::MOST_OPENERS as usize;

// The place of the opener of this number, where it lives.
pub(crate) fn place_of(openers: &[OpenerCore], who: u32) -> Option<usize>
    ensures some { IfSome result (λ place. (place + 1 ≡ who) × (place < length openers.now) × ((o : OpenerState) → slice_get openers.now place ≡ Some o → is_ended o.work ≡ false)) }
    ensures none { result ≡ None → (o : OpenerState) → Lives openers.now who o → ⊥ }
{
    let place = (who as usize).checked_sub(1)?;
    let opener = openers.get(place)?;
    if opener.is_ended() {
        return None;
    }
    Some(place)
}

// Opens one more opener.
pub(crate) fn open_one(
    alloc: Global,
    seat: &mut LocalSeat,
    openers: &mut Vec<OpenerCore>,
    answers: &Vec<Answer>,
) -> Result<u32, OpenStop>
    requires { IsWorld seat.old.region openers.old.items answers.now.items }
    ensures world { IsWorld seat.new.region openers.new.items answers.now.items }
    ensures running { calls_running openers.new.items ≡ calls_running openers.old.items }
    ensures ok { (noted : Bool) → IfOk result (λ who. Opens who (world_of seat.old openers.old.items answers.now.items noted) (world_of seat.new openers.new.items answers.now.items noted)) }
    ensures err { (noted : Bool) → IfErr result (λ why. IsNotOpened why (world_of seat.old openers.old.items answers.now.items noted)) }
    ensures start { seat.new.region.start ≡ seat.old.region.start }
    ensures same { OnErr result ((seat.new.region ≡ seat.old.region) × (openers.new.items ≡ openers.old.items)) }
{
    let count = openers.len();
    if count >= MOST_OPENERS {
        return Err(OpenStop::TooMany);
    }
    if openers.reserve(1).is_err() {
        return Err(OpenStop::Memory);
    }
    let who = count as u32 + 1;
    seat.turn_to(who);
    if let Err(stop) = seat.admit(who) {
        return Err(not_admitted(stop));
    }
    let opener = opener_at(alloc, seat);
    push_within(openers, opener);
    Ok(who)
}

fn not_admitted(stop: AdmitStop) -> OpenStop
    ensures { result ≡ stop_of_admission stop }
{
    match stop {
        AdmitStop::JournalFull => OpenStop::JournalFull,
        AdmitStop::Memory => OpenStop::Memory,
    }
}

// An opener that has made no call.
fn opener_at(alloc: Global, seat: &LocalSeat) -> OpenerCore
    requires alive { (seat_state seat.now).ended ≡ false }
    requires free { (seat_state seat.now).holds ≡ None }
    ensures tied { Tied result (seat_state seat.now) }
    ensures new { result ≡ new_opener seat.now.who }
{
    OpenerCore::new(alloc, seat.who())
}

// Begins a call of the opener at this place.
pub(crate) fn begin_at(
    seat: &mut LocalSeat,
    openers: &mut Vec<OpenerCore>,
    answers: &Vec<Answer>,
    place: usize,
    call: Call,
    now: u32,
) -> Result<(), WorldStop>
    requires world { IsWorld seat.old.region openers.old.items answers.now.items }
    requires inside { place < vec_len openers.old }
    requires alive { (o : OpenerState) → slice_get openers.old.items place ≡ Some o → is_ended o.work ≡ false }
    ensures world { IsWorld seat.new.region openers.new.items answers.now.items }
    ensures ok { (noted : Bool) → OnOk result (Begun (place + 1) call now (world_of seat.old openers.old.items answers.now.items noted) (world_of seat.new openers.new.items answers.now.items noted)) }
    ensures err { (noted : Bool) → IfErr result (λ why. IsNotBegun why (place + 1) call (world_of seat.old openers.old.items answers.now.items noted)) }
    ensures start { seat.new.region.start ≡ seat.old.region.start }
    ensures refused { IfErr result (λ why. why ≢ WorldStop.NoOpener) }
    ensures same { OnErr result ((seat.new.region ≡ seat.old.region) × (openers.new.items ≡ openers.old.items)) }
{
    seat.turn_to(place as u32 + 1);
    match openers[place].begin(seat, call, now) {
        Ok(()) => Ok(()),
        Err(not_begun) => {
            let why = not_begun.why;
            mem::drop(not_begun);
            Err(WorldStop::Refused(why))
        }
    }
}

// The next step of the opener at this place. There is room for its answer.
pub(crate) fn step_at(
    seat: &mut LocalSeat,
    openers: &mut Vec<OpenerCore>,
    answers: &mut Vec<Answer>,
    place: usize,
) -> Moved
    requires world { IsWorld seat.old.region openers.old.items answers.old.items }
    requires inside { place < vec_len openers.old }
    requires alive { (o : OpenerState) → slice_get openers.old.items place ≡ Some o → is_ended o.work ≡ false }
    requires room { vec_len answers.old + calls_running openers.old.items ≤ vec_capacity answers.old }
    ensures world { IsWorld seat.new.region openers.new.items answers.new.items }
    ensures room { vec_len answers.new + calls_running openers.new.items ≤ vec_capacity answers.new }
    ensures moves { (noted : Bool) → Moves (place + 1) result (world_of seat.old openers.old.items answers.old.items noted) (world_of seat.new openers.new.items answers.new.items noted) }
    ensures start { seat.new.region.start ≡ seat.old.region.start }
    ensures lives { result ≢ Moved.NoOpener }
    ensures held { HoldsAreKept (place + 1) (world_of seat.old openers.old.items answers.old.items false) (world_of seat.new openers.new.items answers.new.items false) }
{
    seat.turn_to(place as u32 + 1);
    let came = openers[place].step(seat);
    said(came, answers)
}

// The opener at this place dies.
pub(crate) fn die_at(
    alloc: Global,
    seat: &mut LocalSeat,
    openers: &mut Vec<OpenerCore>,
    answers: &Vec<Answer>,
    place: usize,
    torn: Option<u32>,
)
    requires world { IsWorld seat.old.region openers.old.items answers.now.items }
    requires inside { place < vec_len openers.old }
    requires alive { (o : OpenerState) → slice_get openers.old.items place ≡ Some o → is_ended o.work ≡ false }
    ensures world { IsWorld seat.new.region openers.new.items answers.now.items }
    ensures fewer { calls_running openers.new.items ≤ calls_running openers.old.items }
    ensures dies { (noted : Bool) → Dies (place + 1) torn true (world_of seat.old openers.old.items answers.now.items noted) (world_of seat.new openers.new.items answers.now.items noted) }
    ensures start { seat.new.region.start ≡ seat.old.region.start }
{
    let who = place as u32 + 1;
    seat.turn_to(who);
    let opener = mem::replace(&mut openers[place], OpenerCore::ended(alloc, who));
    die(opener, seat, torn);
}

// An opener dies at a region in memory, which turns nobody away.
fn die(opener: OpenerCore, seat: &mut LocalSeat, torn: Option<u32>)
    requires { Tied opener (seat_state seat.old) }
    ensures dead { DiesAt opener.work torn (seat_state seat.old) (seat_state seat.new) }
    ensures ended { DeathEnds opener (seat_state seat.new) }
    ensures settles { DeathSettles opener (seat_state seat.old) (seat_state seat.new) }
{
    match opener.die(seat, torn) {
        Ok(()) => {}
        Err(_) => unreachable!(),
    }
}

// What is said of a step. An answer is put behind the others, where there is room for one.
fn said(came: Step, answers: &mut Vec<Answer>) -> Moved
    requires room { IfAnswered came (vec_len answers.old < vec_capacity answers.old) }
    requires turnless { came ≢ Step.Again }
    ensures said { IsSaid (vec_len answers.old) came result }
    ensures answers { answers.new.items ≡ answers.old.items ++ answers_by came }
    ensures capacity { vec_capacity answers.old ≤ vec_capacity answers.new }
{
    match came {
        Step::Idle => Moved::Idle,
        Step::Going => Moved::Going,
        Step::Again => unreachable!(),
        Step::Blocked(holder) => Moved::Blocked(holder),
        Step::Answered(answer) => {
            let place = answers.len();
            push_within(answers, answer);
            Moved::Answered(place)
        }
        Step::Stopped(stop) => Moved::Stopped(stop),
    }
}

// Puts a value behind the others, where there is room for one.
pub(crate) fn push_within<T: Drop>(list: &mut Vec<T>, value: T)
    requires { vec_len list.old < vec_capacity list.old }
    ensures items { list.new.items ≡ list.old.items ++ value ∷ [] }
    ensures capacity { vec_capacity list.old ≤ vec_capacity list.new }
{
    if list.push(value).is_err() {
        unreachable!()
    }
}
