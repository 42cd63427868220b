// The script of a race: openers, and the calls of each.
ghost use Rattle.std.specs.Prelude.{[], ◌∷◌, ◌++◌, ◌≡◌, ◌+◌, ◌<◌, ◌≤◌, ℕ, List, All, IfOk, IfErr, IfSome, IsSome, OnOk, Option, Some, None, true, false, length};
ghost use Rattle.script_lang.specs.Played.{Stock, stock_of, stocked};
ghost use Rattle.script_lang.specs.Script.{EndsLines, texts_of, without_feed};
ghost use Rattle.script_lang.specs.declared.line.Line.{Line as Named};
ghost use Rattle.script_lang.specs.declared.line.Line.TheVariants as Line;
ghost use Rattle.race_core.specs.declared.halt.Halt.TheVariants as Halt;
ghost use Rattle.race_core.specs.Stocked.{OfAll};
ghost use Rattle.race_core.specs.Script.{SaysRace, IsHaltedIn, HaltsAt};
ghost use Rattle.race_core.specs.Reading.{IsAt, IsOneFewer, IsTaken, StayPaired, Takes, TakesOrHalts};

use crate::entrant::{Entrant, TimedCall};
use crate::halt::{Halt, Halted};
use bstr::ByteSlice;
use expiring_map::Memory;
use handlers::{Handler, HandlerStock, Strategy};
use lock_rules::MOST_OPENERS;
use script_lang::{LARGEST_COUNT, LARGEST_LINE, Line, LineStop, read_line};
use std::alloc::Global;
use std::mem;

const MOST: usize = MOST_OPENERS as usize;

/// The openers of a race, and their handlers in the same order.
#[derive(Drop)]
pub struct Field {
    pub openers: Vec<Entrant>,
    pub handlers: Vec<Box<dyn Handler + Send>>,
}

/// What the script of a race says, up to a line that ends the reading. `cut` says that a further byte follows the script, and that its last
/// line isn't whole.
pub fn read_race(
    alloc: Global,
    stock: &mut HandlerStock,
    script: &[u8],
    cut: bool,
) -> Result<Field, Halted>
    requires fresh { OfAll (λ h. (told h ≡ []) × (changes_told h ≡ [])) stock.old }
    ensures says { IfOk result (λ f. (cut ≡ false) × SaysRace (stock_of stock.old) (texts_of script.now) f.openers.items) }
    ensures handlers { IfOk result (λ f. length f.handlers.items ≡ length f.openers.items) }
    ensures fresh { IfOk result (λ f. All (λ h. (told h ≡ []) × (changes_told h ≡ [])) f.handlers.items) }
    ensures halted { IfErr result (λ h. IsHaltedIn cut (stock_of stock.old) script.now h) }
{
    let mut field = Field {
        openers: Vec::new(alloc),
        handlers: Vec::new(alloc),
    };
    if !cut {
        take_lines(alloc, &mut field, stock, script)?;
        return Ok(field);
    }
    let halted = take_cut(alloc, &mut field, stock, script);
    mem::drop(field);
    Err(halted)
}

// The script has a byte too many. The line that holds it is refused, if none before it ends the reading.
fn take_cut(alloc: Global, field: &mut Field, stock: &mut HandlerStock, script: &[u8]) -> Halted
    requires fresh { OfAll (λ h. (told h ≡ []) × (changes_told h ≡ [])) stock.old }
    requires handlers { All (λ h. (told h ≡ []) × (changes_told h ≡ [])) field.old.handlers.items }
    requires none { (field.old.openers.items ≡ []) × (field.old.handlers.items ≡ []) }
    ensures { IsHaltedIn true (stock_of stock.old) script.now result }
{
    let size = end_of_lines(script);
    match take_lines(alloc, field, stock, &script[..size]) {
        Ok(count) => Halted {
            number: count + 1,
            why: Halt::Refused,
        },
        Err(halted) => halted,
    }
}

// How many bytes stand up to the last line feed.
fn end_of_lines(script: &[u8]) -> usize
    ensures { EndsLines script.now result }
{
    let mut size = script.len();
    while size > 0 && script[size - 1] != b'\n' {
        size -= 1;
    }
    size
}

// Takes the lines of a script up to one that ends the reading. How many they are.
fn take_lines(
    alloc: Global,
    field: &mut Field,
    stock: &mut HandlerStock,
    script: &[u8],
) -> Result<usize, Halted>
    requires fresh { OfAll (λ h. (told h ≡ []) × (changes_told h ≡ [])) stock.old }
    requires handlers { All (λ h. (told h ≡ []) × (changes_told h ≡ [])) field.old.handlers.items }
    requires none { (field.old.openers.items ≡ []) × (field.old.handlers.items ≡ []) }
    ensures handlers { OnOk result (All (λ h. (told h ≡ []) × (changes_told h ≡ [])) field.new.handlers.items) }
    ensures pairs { OnOk result (length field.new.handlers.items ≡ length field.new.openers.items) }
    ensures taken { IfOk result (IsTaken (stock_of stock.old) (stock_of stock.new) (texts_of script.now) [] field.new.openers.items) }
    ensures halted { IfErr result (λ h. HaltsAt (stock_of stock.old) (texts_of script.now) false h.number h.why) }
{
    let mut count = 0;
    for line in script.lines_with_terminator() {
        if let Err(why) = take_text(alloc, field, stock, count, text_of(line)) {
            return Err(Halted {
                number: count + 1,
                why,
            });
        }
        count += 1;
    }
    Ok(count)
}

// What stands before a line's feed.
fn text_of(line: &[u8]) -> &[u8]
    ensures { result.now ≡ without_feed line.now }
{
    if line.ends_with(b"\n") {
        &line[..line.len() - 1]
    } else {
        line
    }
}

// Takes the line behind so many others.
fn take_text(
    alloc: Global,
    field: &mut Field,
    stock: &mut HandlerStock,
    count: usize,
    line: &[u8],
) -> Result<(), Halt>
    requires fresh { OfAll (λ h. (told h ≡ []) × (changes_told h ≡ [])) stock.old }
    requires handlers { All (λ h. (told h ≡ []) × (changes_told h ≡ [])) field.old.handlers.items }
    ensures fresh { OfAll (λ h. (told h ≡ []) × (changes_told h ≡ [])) stock.new }
    ensures handlers { OnOk result (All (λ h. (told h ≡ []) × (changes_told h ≡ [])) field.new.handlers.items) }
    ensures pairs { OnOk result (StayPaired (length field.old.handlers.items) (length field.old.openers.items) (length field.new.handlers.items) (length field.new.openers.items)) }
    ensures taken { (all : Stock) (before : List (Option Named)) → count ≡ length before → IsAt all (stock_of stock.old) before field.old.openers.items →
        TakesOrHalts all (stock_of stock.new) before line.now field.new.openers.items result }
{
    if count >= LARGEST_COUNT || line.len() > LARGEST_LINE {
        return Err(Halt::Refused);
    }
    match read_line(alloc, line) {
        Ok(line) => take(alloc, field, stock, count + 1, line),
        Err(LineStop::Bad) => Err(Halt::Refused),
        Err(LineStop::Memory) => Err(Halt::Memory),
    }
}

// Does what the line of this number names.
fn take(
    alloc: Global,
    field: &mut Field,
    stock: &mut HandlerStock,
    number: usize,
    line: Option<Line>,
) -> Result<(), Halt>
    requires fresh { OfAll (λ h. (told h ≡ []) × (changes_told h ≡ [])) stock.old }
    requires handlers { All (λ h. (told h ≡ []) × (changes_told h ≡ [])) field.old.handlers.items }
    ensures fresh { OfAll (λ h. (told h ≡ []) × (changes_told h ≡ [])) stock.new }
    ensures handlers { OnOk result (All (λ h. (told h ≡ []) × (changes_told h ≡ [])) field.new.handlers.items) }
    ensures pairs { OnOk result (StayPaired (length field.old.handlers.items) (length field.old.openers.items) (length field.new.handlers.items) (length field.new.openers.items)) }
    ensures taken { (all : Stock) (before : List (Option Named)) → number ≡ length before + 1 → IsAt all (stock_of stock.old) before field.old.openers.items →
        Takes all (stock_of stock.new) before line field.new.openers.items result }
{
    match line {
        None => Ok(()),
        Some(Line::Open(strategy)) => open(alloc, field, stock, strategy),
        Some(Line::Next { who, now, call }) => ask(
            &mut field.openers,
            who,
            TimedCall {
                line: number,
                now,
                call,
            },
        ),
        Some(Line::Begin { .. } | Line::Step { .. } | Line::Die { .. }) => Err(Halt::Refused),
    }
}

fn open(
    alloc: Global,
    field: &mut Field,
    stock: &mut HandlerStock,
    strategy: Strategy,
) -> Result<(), Halt>
    requires fresh { OfAll (λ h. (told h ≡ []) × (changes_told h ≡ [])) stock.old }
    requires handlers { All (λ h. (told h ≡ []) × (changes_told h ≡ [])) field.old.handlers.items }
    ensures fresh { OfAll (λ h. (told h ≡ []) × (changes_told h ≡ [])) stock.new }
    ensures handlers { OnOk result (All (λ h. (told h ≡ []) × (changes_told h ≡ [])) field.new.handlers.items) }
    ensures pairs { OnOk result (StayPaired (length field.old.handlers.items) (length field.old.openers.items) (length field.new.handlers.items) (length field.new.openers.items)) }
    ensures taken { (all : Stock) (before : List (Option Named)) → IsAt all (stock_of stock.old) before field.old.openers.items →
        Takes all (stock_of stock.new) before (Some (Line.Open strategy)) field.new.openers.items result }
{
    if field.openers.len() >= MOST {
        return Err(Halt::Refused);
    }
    match draw(stock, strategy) {
        Some(handler) => enter(field, handler, Entrant::new(alloc, strategy)),
        None => Err(Halt::Refused),
    }
}

// A handler of the stock, where it has one of this strategy.
fn draw(stock: &mut HandlerStock, strategy: Strategy) -> Option<Box<dyn Handler + Send>>
    requires { OfAll (λ h. (told h ≡ []) × (changes_told h ≡ [])) stock.old }
    ensures fresh { OfAll (λ h. (told h ≡ []) × (changes_told h ≡ [])) stock.new }
    ensures handler { IfSome result (λ h. (told h ≡ []) × (changes_told h ≡ [])) }
    ensures some { IsSome result → IsOneFewer strategy (stock_of stock.old) (stock_of stock.new) }
    ensures none { result ≡ None → stocked (stock_of stock.old) strategy ≡ 0 }
{
    stock.draw(strategy)
}

fn enter(field: &mut Field, handler: Box<dyn Handler + Send>, opener: Entrant) -> Result<(), Halt>
    ensures handlers { OnOk result (field.new.handlers.items ≡ field.old.handlers.items ++ handler ∷ []) }
    ensures openers { OnOk result (field.new.openers.items ≡ field.old.openers.items ++ opener ∷ []) }
    ensures err { IfErr result (λ why. why ≡ Halt.Memory) }
{
    field.handlers.push(handler).map_err(|_| Memory)?;
    field.openers.push(opener).map_err(|_| Memory)?;
    Ok(())
}

fn ask(openers: &mut [Entrant], who: u32, asked: TimedCall) -> Result<(), Halt>
    ensures count { length openers.new ≡ length openers.old }
    ensures taken { (all left : Stock) (before : List (Option Named)) → asked.line ≡ length before + 1 → IsAt all left before openers.old →
        Takes all left before (Some (Line.Next who asked.now asked.call)) openers.new result }
{
    match place_of(openers, who) {
        Some(place) => openers[place].ask(asked),
        None => {
            mem::drop(asked);
            Err(Halt::Refused)
        }
    }
}

// Where the opener of this number stands.
fn place_of(openers: &[Entrant], who: u32) -> Option<usize>
    ensures some { IfSome result (λ place. (place + 1 ≡ who) × (place < length openers.now)) }
    ensures none { result ≡ None → (1 ≤ who) × (who ≤ length openers.now) → ⊥ }
{
    let place = (who as usize).checked_sub(1)?;
    if place < openers.len() {
        Some(place)
    } else {
        None
    }
}
