// What the lines of a script do to a world.
ghost use Rattle.std.specs.Prelude.{[], ◌≡◌, ◌↔◌, IsTrue, IfOk, IfErr, OnErr, OnOk, List, Option, Some, ℕ, length};
ghost use Rattle.opener.specs.Opener.{stop_found};
ghost use Rattle.opener.specs.State.{OpenerState};
ghost use Rattle.region_words.specs.Region.{Region};
ghost use Rattle.region_words.specs.declared.event.Event.{Event};
ghost use Rattle.world.specs.World.{IsLiving, IsSound, Lives};
ghost use Rattle.world.specs.Moves.{CameFrom};
ghost use Rattle.mmkv_top.specs.Stocked.{OfAll};
ghost use Rattle.mmkv_top.specs.State.{play_state};
ghost use Rattle.script_lang.specs.Parts.{Part, Running};
ghost use Rattle.script_lang.specs.Played.{Stock, reason_said, stock_of};
ghost use Rattle.mmkv_top.specs.Progress.{IsAt, Takes, Notes, Stepped, Walks, MetFull, IsPlaced, HaltsBy, IsHaltOf, seat_at};
ghost use Rattle.opener.specs.declared.calls.Step.TheVariants as Step;

use crate::halt::Halt;
use change_log::Call;
use handlers::{HandlerStock, Strategy};
use opener::Stop;
use script_lang::{Line, Outcome, Reason, answer_text, outcome_text};
use std::alloc::Global;
use std::mem;
use world::{Moved, World};

/// Does what a line names. A line that has the next call made belongs to openers that run by themselves.
pub(crate) fn take(
    alloc: Global,
    world: &mut World,
    text: &mut Vec<u8>,
    handlers: &mut HandlerStock,
    line: Option<Line>,
) -> Result<(), Halt>
    requires fresh { OfAll (λ h. (told h ≡ []) × (changes_told h ≡ [])) handlers.old }
    requires sound { IsSound world.old.core }
    ensures fresh { OfAll (λ h. (told h ≡ []) × (changes_told h ≡ [])) handlers.new }
    ensures sound { IsSound world.new.core }
    ensures moved { CameFrom world.old.core world.new.core }
    ensures taken { (stock : Stock) (start : Region) (parts : List Part) → IsAt stock (stock_of handlers.old) start parts (play_state world.old.core text.old.items) →
        Takes stock (stock_of handlers.new) start parts line (play_state world.new.core text.new.items) result }
{
    match line {
        None => Ok(()),
        Some(Line::Open(strategy)) => open(world, handlers, strategy),
        Some(Line::Begin { who, now, call }) => begin(world, who, now, call),
        Some(Line::Step { who, count }) => step(alloc, world, text, who, count),
        Some(Line::Die { who, torn }) => die(world, who, torn),
        Some(Line::Next { .. }) => Err(Halt::Refused),
    }
}

fn open(world: &mut World, handlers: &mut HandlerStock, strategy: Strategy) -> Result<(), Halt>
    requires fresh { OfAll (λ h. (told h ≡ []) × (changes_told h ≡ [])) handlers.old }
    requires sound { IsSound world.old.core }
    ensures fresh { OfAll (λ h. (told h ≡ []) × (changes_told h ≡ [])) handlers.new }
    ensures sound { IsSound world.new.core }
    ensures moved { CameFrom world.old.core world.new.core }
    ensures taken { (stock : Stock) (start : Region) (parts : List Part) (text : List ℕ) → IsAt stock (stock_of handlers.old) start parts (play_state world.old.core text) →
        Takes stock (stock_of handlers.new) start parts (Some (Line.Open strategy)) (play_state world.new.core text) result }
{
    let Some(handler) = handlers.draw(strategy) else {
        return Err(Halt::Refused);
    };
    match world.open(handler) {
        Ok(_) => Ok(()),
        Err(refused) => {
            let why = refused.why;
            mem::drop(refused);
            Err(Halt::from(why))
        }
    }
}

fn begin(world: &mut World, who: u32, now: u32, call: Call) -> Result<(), Halt>
    requires sound { IsSound world.old.core }
    ensures sound { IsSound world.new.core }
    ensures moved { CameFrom world.old.core world.new.core }
    ensures taken { (stock left : Stock) (start : Region) (parts : List Part) (text : List ℕ) → IsAt stock left start parts (play_state world.old.core text) →
        Takes stock left start parts (Some (Line.Begin who now call)) (play_state world.new.core text) result }
{
    match world.begin(who, call, now) {
        Ok(()) => Ok(()),
        Err(why) => Err(Halt::from(why)),
    }
}

fn step(
    alloc: Global,
    world: &mut World,
    text: &mut Vec<u8>,
    who: u32,
    count: u32,
) -> Result<(), Halt>
    requires sound { IsSound world.old.core }
    ensures sound { IsSound world.new.core }
    ensures moved { CameFrom world.old.core world.new.core }
    ensures taken { (stock left : Stock) (start : Region) (parts : List Part) → IsAt stock left start parts (play_state world.old.core text.old.items) →
        Takes stock left start parts (Some (Line.Step who count)) (play_state world.new.core text.new.items) result }
{
    if !world.lives(who) {
        return Err(Halt::Refused);
    }
    match steps(world, who, count) {
        Ok(last) => note(alloc, world, who, last, text),
        Err(why) => Err(why),
    }
}

fn die(world: &mut World, who: u32, torn: Option<u32>) -> Result<(), Halt>
    requires sound { IsSound world.old.core }
    ensures sound { IsSound world.new.core }
    ensures moved { CameFrom world.old.core world.new.core }
    ensures taken { (stock left : Stock) (start : Region) (parts : List Part) (text : List ℕ) → IsAt stock left start parts (play_state world.old.core text) →
        Takes stock left start parts (Some (Line.Die who torn)) (play_state world.new.core text) result }
{
    if world.die(who, torn) {
        Ok(())
    } else {
        Err(Halt::Refused)
    }
}

// Steps of an opener's running call, to the first that doesn't leave it going, or to so many. What the last of them came to. A step
// that finds no place in the journal ends the play, also where the call's lock is still to be given up.
fn steps(world: &mut World, who: u32, count: u32) -> Result<Moved, Halt>
    requires sound { IsSound world.old.core }
    ensures sound { IsSound world.new.core }
    ensures moved { CameFrom world.old.core world.new.core }
    ensures placed { IfOk result (IsPlaced (length world.new.core.answers)) }
    ensures walks { IfOk result (λ last. (o : OpenerState) → Lives world.old.core.openers who o → (start : Region) (past : List Event) (held : ℕ) (before : Option Running) →
        Stepped who (length world.old.core.openers) start past held before o.work 0 Step.Going [] o (seat_at who world.old.core.region) →
        Walks who (length world.old.core.openers) start past held before o.work count last world.old.core world.new.core) }
    ensures full { IfErr result (λ why. why ≡ Halt.JournalFull) }
    ensures halted { OnErr result ((o : OpenerState) → Lives world.old.core.openers who o → (start : Region) (past : List Event) (held : ℕ) (before : Option Running) →
        Stepped who (length world.old.core.openers) start past held before o.work 0 Step.Going [] o (seat_at who world.old.core.region) → MetFull who (length world.old.core.openers) start past before count) }
{
    for _ in 0..count {
        match world.step(who) {
            Moved::Going => {}
            last => return Ok(last),
        }
        if lacks_places(world, who) {
            return Err(Halt::JournalFull);
        }
    }
    Ok(Moved::Going)
}

// The running call found no places in the journal for what it wants.
fn lacks_places(world: &World, who: u32) -> bool
    ensures { (o : OpenerState) → Lives world.now.core.openers who o → IsTrue result ↔ stop_found o.work ≡ Some Stop.JournalFull }
{
    matches!(world.stop_found(who), Some(Stop::JournalFull))
}

// Adds the text of what an opener's last step came to, if it ends the line.
fn note(alloc: Global, world: &World, who: u32, last: Moved, text: &mut Vec<u8>) -> Result<(), Halt>
    requires { IsPlaced (length world.now.core.answers) last }
    ensures ok { OnOk result (Notes who world.now.core.answers last text.old.items text.new.items) }
    ensures err { IfErr result (HaltsBy last) }
{
    match last {
        Moved::NoOpener | Moved::Idle | Moved::Going => Ok(()),
        Moved::Answered(place) => Ok(answer_text(alloc, &world.answers()[place], text)?),
        Moved::Blocked(holder) => Ok(outcome_text(alloc, &Outcome::Blocked { who, holder }, text)?),
        Moved::Stopped(stop) => {
            let reason = reason_of(stop)?;
            Ok(outcome_text(alloc, &Outcome::Stopped { who, reason }, text)?)
        }
    }
}

// The reason that is printed for a stop; the others end the play.
fn reason_of(stop: Stop) -> Result<Reason, Halt>
    ensures ok { IfOk result (λ r. reason_said stop ≡ Some r) }
    ensures err { IfErr result (IsHaltOf stop) }
{
    match stop {
        Stop::Full { need } => Ok(Reason::Full { need }),
        Stop::SequenceEnd => Ok(Reason::SequenceEnd),
        Stop::ExpiryOff => Ok(Reason::ExpiryOff),
        Stop::ExpiryRange => Ok(Reason::ExpiryRange),
        Stop::AlreadyOn => Ok(Reason::AlreadyOn),
        Stop::AlreadyOff => Ok(Reason::AlreadyOff),
        Stop::Memory => Err(Halt::Memory),
        Stop::JournalFull => Err(Halt::JournalFull),
        Stop::NotWhole(_) | Stop::Version(_) | Stop::Flags(_) | Stop::Fault => Err(Halt::NotWhole),
    }
}
