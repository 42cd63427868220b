// The lines of a script, taken one after another.
ghost use Rattle.std.specs.Prelude.{[], ◌≡◌, List, false, IfOk, IfErr, OnOk};
ghost use Rattle.region_words.specs.Region.{Region};
ghost use Rattle.script_lang.specs.Parts.{Part};
ghost use Rattle.script_lang.specs.Played.{Stock, stock_of};
ghost use Rattle.script_lang.specs.Script.{texts_of, without_feed};
ghost use Rattle.world.specs.World.{IsSound};
ghost use Rattle.world.specs.Moves.{CameFrom};
ghost use Rattle.mmkv_top.specs.Stocked.{OfAll};
ghost use Rattle.mmkv_top.specs.State.{play_state};
ghost use Rattle.mmkv_top.specs.Progress.{IsAt, IsTaken, HaltsAt, TakesOrHalts};

use crate::halt::{Halt, Halted};
use crate::moves::take;
use bstr::ByteSlice;
use handlers::HandlerStock;
use script_lang::{LARGEST_COUNT, LARGEST_LINE, LineStop, read_line};
use std::alloc::Global;
use world::World;

/// Takes the lines of a script up to one that ends the play. How many they are.
pub(crate) fn take_lines(
    alloc: Global,
    world: &mut World,
    text: &mut Vec<u8>,
    handlers: &mut HandlerStock,
    script: &[u8],
) -> Result<usize, Halted>
    requires fresh { OfAll (λ h. (told h ≡ []) × (changes_told h ≡ [])) handlers.old }
    requires sound { IsSound world.old.core }
    requires at { IsAt (stock_of handlers.old) (stock_of handlers.old) world.old.core.region.start [] (play_state world.old.core text.old.items) }
    ensures fresh { OfAll (λ h. (told h ≡ []) × (changes_told h ≡ [])) handlers.new }
    ensures sound { IsSound world.new.core }
    ensures moved { CameFrom world.old.core world.new.core }
    ensures taken { IfOk result (IsTaken (stock_of handlers.old) (stock_of handlers.new) world.old.core.region.start (texts_of script.now) [] (play_state world.new.core text.new.items)) }
    ensures halted { IfErr result (λ h. HaltsAt (stock_of handlers.old) world.old.core.region.start (texts_of script.now) false h.number h.why) }
{
    let mut count = 0;
    for line in script.lines_with_terminator() {
        if let Err(why) = take_text(alloc, world, text, handlers, count, text_of(line)) {
            return Err(Halted {
                number: count + 1,
                why,
            });
        }
        count += 1;
    }
    Ok(count)
}

// What stands before a line's feed.
fn text_of(line: &[u8]) -> &[u8]
    ensures { result.now ≡ without_feed line.now }
{
    if line.ends_with(b"\n") {
        &line[..line.len() - 1]
    } else {
        line
    }
}

// Takes the line behind so many others.
fn take_text(
    alloc: Global,
    world: &mut World,
    text: &mut Vec<u8>,
    handlers: &mut HandlerStock,
    count: usize,
    line: &[u8],
) -> Result<(), Halt>
    requires fresh { OfAll (λ h. (told h ≡ []) × (changes_told h ≡ [])) handlers.old }
    requires sound { IsSound world.old.core }
    ensures fresh { OfAll (λ h. (told h ≡ []) × (changes_told h ≡ [])) handlers.new }
    ensures sound { IsSound world.new.core }
    ensures moved { CameFrom world.old.core world.new.core }
    ensures taken { (stock : Stock) (start : Region) (parts : List Part) → IsAt stock (stock_of handlers.old) start parts (play_state world.old.core text.old.items) →
        TakesOrHalts stock (stock_of handlers.new) start parts count line.now (play_state world.new.core text.new.items) result }
{
    if count >= LARGEST_COUNT || line.len() > LARGEST_LINE {
        return Err(Halt::Refused);
    }
    match read_line(alloc, line) {
        Ok(line) => take(alloc, world, text, handlers, line),
        Err(LineStop::Bad) => Err(Halt::Refused),
        Err(LineStop::Memory) => Err(Halt::Memory),
    }
}
