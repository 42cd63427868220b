// The command `play`.
ghost use Rattle.std.specs.Prelude.{[], ◌≡◌, ◌≢◌, ◌⊎◌, ℕ, ◌≤◌, ◌++◌, ◌∷◌, List, IfOk, OnOk, flat_map, length, replicate, take, false, true, codes, decimal};
ghost use Rattle.region_words.specs.Outside.{Rose};
ghost use Rattle.region_words.specs.Region.{IsAccepted};
ghost use Rattle.region_words.specs.Past.{region_after, changes_of};
ghost use Rattle.region_words.specs.Local.{no_account};
ghost use Rattle.region_words.specs.Stores.{IsId};
ghost use Rattle.script_lang.specs.Texts.{line, changes_text, region_text};
ghost use Rattle.mmkv_top.specs.Stocked.{OfAll};
ghost use Rattle.mmkv_top.specs.Ending.{IsDueOr, ending};
ghost use Rattle.mmkv_top.specs.Due.{IsAmong, play_statuses, IsPlay, IsPlayOf, IsInputPlay, IsEndingOf, region_in};
ghost use Rattle.script_lang.specs.Played.{stock_of};
ghost use Rattle.script_lang.specs.Script.{EndsLines, texts_of};
ghost use Rattle.mmkv_top.specs.Play.{IsEndedEarly, not_yet};
ghost use Rattle.world.specs.World.{IsSound};
ghost use Rattle.world.specs.Moves.{CameFrom, CountsLoads};
ghost use Rattle.mmkv_top.specs.Lent.{IsPlayedOn, PlaysOn};
ghost use Rattle.lock_rules.specs.declared.limits.TheConstants.{MOST_OPENERS};
ghost use Rattle.mmkv_top.specs.State.{play_state};
ghost use Rattle.mmkv_top.specs.Progress.{IsAt, IsEndingAt};

use crate::ending::{Ending, Status};
use crate::halt::{Halt, Halted};
use crate::lines::take_lines;
use crate::refusals::{refused, unbrought};
use expiring_map::{Bytes, Memory};
use handlers::HandlerStock;
use meta_record::Shown;
use region_words::{
    Brought, LARGEST_DATA, LARGEST_META, LocalRegion, RegionStop, Shelf, ShelfStop, Source,
    a_region_stays_a_region, shown,
};
use script_lang::{ScriptStop, changes_text, read_script, region_text};
use std::alloc::Global;
use std::mem;
use world::{World, answers_count_loads_that_were_made};

/// Plays a script of openers from the input, at a copy of a store. The store has to show a whole image.
pub(crate) fn play<D: Shelf, S: Source>(
    alloc: Global,
    shelf: &mut D,
    id: &[u8],
    input: &mut S,
    handlers: &mut HandlerStock,
) -> Ending
    requires fresh { OfAll (λ h. (told h ≡ []) × (changes_told h ≡ [])) handlers.old }
    requires id { IsId id.now }
    ensures due { IsDueOr (Rose (D.faults shelf.old) (D.faults shelf.new))
        (IsPlay (stock_of handlers.old) (S.left input.old) (S.left input.new) (Rose (S.faults input.old) (S.faults input.new)) (D.stores shelf.old id.now)) result }
    ensures same { (other : List ℕ) → D.stores shelf.new other ≡ D.stores shelf.old other }
    ensures statuses { IsAmong (5 ∷ 8 ∷ play_statuses) result.status }
    ensures fault { result.status ≡ 5 → Rose (D.faults shelf.old) (D.faults shelf.new) }
    ensures read_fault { result.status ≡ 3 → Rose (S.faults input.old) (S.faults input.new) }
    ensures clean { result.status ≢ 5 → result.status ≢ 8 → D.faults shelf.new ≡ D.faults shelf.old }
    ensures clean_input { result.status ≢ 3 → result.status ≢ 8 → S.faults input.new ≡ S.faults input.old }
{
    let brought = shelf.bring(id);
    match play_brought(alloc, brought, input, handlers) {
        Ok(ending) => ending,
        Err(Memory) => Ending::no_memory(alloc),
    }
}

fn play_brought<S: Source>(
    alloc: Global,
    brought: Result<Brought, ShelfStop>,
    input: &mut S,
    handlers: &mut HandlerStock,
) -> Result<Ending, Memory>
    requires fresh { OfAll (λ h. (told h ≡ []) × (changes_told h ≡ [])) handlers.old }
    requires data { IfOk brought (λ b. length b.body ≤ LARGEST_DATA) }
    requires meta { IfOk brought (λ b. length b.meta ≤ LARGEST_META) }
    ensures due { IfOk result (λ e. IsEndingOf
        (IsPlayOf (stock_of handlers.old) (S.left input.old) (S.left input.new) (Rose (S.faults input.old) (S.faults input.new))) brought e) }
    ensures clean_input { IfOk result (λ e. e.status ≢ 3 → S.faults input.new ≡ S.faults input.old) }
{
    match brought {
        Ok(brought) => play_files(alloc, brought, input, handlers),
        Err(stop) => unbrought(alloc, stop),
    }
}

fn play_files<S: Source>(
    alloc: Global,
    brought: Brought,
    input: &mut S,
    handlers: &mut HandlerStock,
) -> Result<Ending, Memory>
    requires fresh { OfAll (λ h. (told h ≡ []) × (changes_told h ≡ [])) handlers.old }
    requires data { length brought.body ≤ LARGEST_DATA }
    requires meta { length brought.meta ≤ LARGEST_META }
    ensures due { IfOk result (IsPlayOf (stock_of handlers.old) (S.left input.old) (S.left input.new)
        (Rose (S.faults input.old) (S.faults input.new)) (region_in brought.body brought.meta)) }
    ensures clean_input { IfOk result (λ e. e.status ≢ 3 → S.faults input.new ≡ S.faults input.old) }
{
    let Brought { body, meta } = brought;
    match LocalRegion::new(alloc, body.into_vec(), meta.into_vec()) {
        Ok(region) => play_region(alloc, region, input, handlers),
        Err(RegionStop::SizeRefused(_)) => unreachable!(),
        Err(RegionStop::Memory) => Err(Memory),
    }
}

fn play_region<S: Source>(
    alloc: Global,
    region: LocalRegion,
    input: &mut S,
    handlers: &mut HandlerStock,
) -> Result<Ending, Memory>
    requires fresh { OfAll (λ h. (told h ≡ []) × (changes_told h ≡ [])) handlers.old }
    requires past { region.past ≡ [] }
    requires new { region.accounts ≡ replicate 65 no_account }
    requires steady { region.failing.listed ≡ [] }
    ensures due { IfOk result (IsPlayOf (stock_of handlers.old) (S.left input.old) (S.left input.new)
        (Rose (S.faults input.old) (S.faults input.new)) region.start) }
    ensures clean_input { IfOk result (λ e. e.status ≢ 3 → S.faults input.new ≡ S.faults input.old) }
{
    region.journal();
    match shown(region.data_bytes(), region.meta_bytes()) {
        Ok(Shown::Whole(_)) => {
            let mut world = World::new(alloc, region);
            let ending = play_input(alloc, &mut world, input, handlers);
            mem::drop(world);
            ending
        }
        Ok(_) => not_yet(alloc),
        Err(fault) => refused(alloc, fault),
    }
}

fn play_input<S: Source>(
    alloc: Global,
    world: &mut World,
    input: &mut S,
    handlers: &mut HandlerStock,
) -> Result<Ending, Memory>
    requires fresh { OfAll (λ h. (told h ≡ []) × (changes_told h ≡ [])) handlers.old }
    requires sound { IsSound world.old.core }
    requires unopened { world.old.core.openers ≡ [] }
    requires steady { world.old.core.region.failing.listed ≡ [] }
    ensures due { IfOk result (IsInputPlay (stock_of handlers.old) world.old.core.region.start (S.left input.old) (S.left input.new)
        (Rose (S.faults input.old) (S.faults input.new))) }
    ensures clean_input { IfOk result (λ e. e.status ≢ 3 → S.faults input.new ≡ S.faults input.old) }
{
    match read_script(alloc, input) {
        Ok(script) => play_text(alloc, world, &script, false, handlers),
        Err(ScriptStop::TooLong(front)) => {
            play_text(alloc, world, front.as_slice(), true, handlers)
        }
        Err(ScriptStop::ReadFault) => Ending::of_text(alloc, 3, "read fault\n"),
        Err(ScriptStop::Memory) => Err(Memory),
    }
}

fn play_text(
    alloc: Global,
    world: &mut World,
    script: &[u8],
    cut: bool,
    handlers: &mut HandlerStock,
) -> Result<Ending, Memory>
    requires fresh { OfAll (λ h. (told h ≡ []) × (changes_told h ≡ [])) handlers.old }
    requires sound { IsSound world.old.core }
    requires unopened { world.old.core.openers ≡ [] }
    requires steady { world.old.core.region.failing.listed ≡ [] }
    ensures { IfOk result (PlaysOn cut (stock_of handlers.old) world.old.core.region.start script.now world.new.core) }
{
    let mut text = Vec::new(alloc);
    let status = play_on(alloc, world, script, cut, handlers, &mut text);
    if status.0 == 8 {
        return Err(Memory);
    }
    Ok(Ending {
        status: status.0,
        text: Bytes::of_vec(text),
    })
}

/// Plays a script on a world that is lent. `cut` says that a further byte follows the script, and that its last line isn't whole. The
/// text that is due is added to `out`; the status is 0, 9, 16 or 17 as in `play`, or 8 where memory was refused.
pub fn play_on(
    alloc: Global,
    world: &mut World,
    script: &[u8],
    cut: bool,
    stock: &mut HandlerStock,
    out: &mut Vec<u8>,
) -> Status
    requires fresh { OfAll (λ h. (told h ≡ []) × (changes_told h ≡ [])) stock.old }
    requires sound { IsSound world.old.core }
    requires unopened { world.old.core.openers ≡ [] }
    requires steady { world.old.core.region.failing.listed ≡ [] }
    ensures fresh { OfAll (λ h. (told h ≡ []) × (changes_told h ≡ [])) stock.new }
    ensures sound { IsSound world.new.core }
    // What the script ends with.
    ensures played { result.0 ≢ 8 → (text : List ℕ) × (out.new.items ≡ out.old.items ++ text)
        × PlaysOn cut (stock_of stock.old) world.old.core.region.start script.now world.new.core (ending result.0 text) }
    ensures memory { result.0 ≡ 8 → out.new.items ≡ out.old.items }
    // Whatever it ends with.
    ensures moved { CameFrom world.old.core world.new.core }
    ensures loads { (who : ℕ) → 1 ≤ who → who ≤ MOST_OPENERS → CountsLoads who world.old.core world.new.core }
{
    answers_count_loads_that_were_made();
    match play_lines(alloc, world, script, cut, stock) {
        Ok(ending) => hand_over(ending, out),
        Err(Memory) => Status(8),
    }
}

// Adds the text of an ending to a buffer. An empty one takes it over.
fn hand_over(ending: Ending, out: &mut Vec<u8>) -> Status
    requires { ending.status ≢ 8 }
    ensures added { result.0 ≢ 8 → (result.0 ≡ ending.status) × (out.new.items ≡ out.old.items ++ ending.text) }
    ensures memory { result.0 ≡ 8 → out.new.items ≡ out.old.items }
{
    let Ending { status, text } = ending;
    if out.is_empty() {
        mem::drop(mem::replace(out, text.into_vec()));
        return Status(status);
    }
    match out.extend_from_slice(text.as_slice()) {
        Ok(()) => Status(status),
        Err(_) => Status(8),
    }
}

fn play_lines(
    alloc: Global,
    world: &mut World,
    script: &[u8],
    cut: bool,
    handlers: &mut HandlerStock,
) -> Result<Ending, Memory>
    requires fresh { OfAll (λ h. (told h ≡ []) × (changes_told h ≡ [])) handlers.old }
    requires sound { IsSound world.old.core }
    requires unopened { world.old.core.openers ≡ [] }
    requires steady { world.old.core.region.failing.listed ≡ [] }
    ensures fresh { OfAll (λ h. (told h ≡ []) × (changes_told h ≡ [])) handlers.new }
    ensures sound { IsSound world.new.core }
    ensures moved { CameFrom world.old.core world.new.core }
    ensures played { IfOk result (PlaysOn cut (stock_of handlers.old) world.old.core.region.start script.now world.new.core) }
    ensures statuses { IfOk result (λ e. e.status ≢ 8) }
{
    world.region().journal();
    if cut {
        play_cut(alloc, world, handlers, script)
    } else {
        play_script(alloc, world, handlers, script)
    }
}

fn play_script(
    alloc: Global,
    world: &mut World,
    handlers: &mut HandlerStock,
    script: &[u8],
) -> Result<Ending, Memory>
    requires fresh { OfAll (λ h. (told h ≡ []) × (changes_told h ≡ [])) handlers.old }
    requires sound { IsSound world.old.core }
    requires at { IsAt (stock_of handlers.old) (stock_of handlers.old) world.old.core.region.start [] (play_state world.old.core []) }
    ensures fresh { OfAll (λ h. (told h ≡ []) × (changes_told h ≡ [])) handlers.new }
    ensures sound { IsSound world.new.core }
    ensures moved { CameFrom world.old.core world.new.core }
    ensures played { IfOk result (λ e. IsPlayedOn (stock_of handlers.old) world.old.core.region.start (texts_of script.now) world.new.core e
        ⊎ IsEndedEarly (stock_of handlers.old) world.old.core.region.start (texts_of script.now) false e) }
{
    let mut text = Vec::new(alloc);
    match take_lines(alloc, world, &mut text, handlers, script) {
        Ok(_) => played(alloc, world, text),
        Err(halted) => halted_at(alloc, halted),
    }
}

// The script has a byte too many. The line that holds it is refused, if none before it ends the play.
fn play_cut(
    alloc: Global,
    world: &mut World,
    handlers: &mut HandlerStock,
    script: &[u8],
) -> Result<Ending, Memory>
    requires fresh { OfAll (λ h. (told h ≡ []) × (changes_told h ≡ [])) handlers.old }
    requires sound { IsSound world.old.core }
    requires at { IsAt (stock_of handlers.old) (stock_of handlers.old) world.old.core.region.start [] (play_state world.old.core []) }
    ensures fresh { OfAll (λ h. (told h ≡ []) × (changes_told h ≡ [])) handlers.new }
    ensures sound { IsSound world.new.core }
    ensures moved { CameFrom world.old.core world.new.core }
    ensures played { IfOk result (λ e. (size : ℕ) × EndsLines script.now size
        × IsEndedEarly (stock_of handlers.old) world.old.core.region.start (texts_of (take size script.now)) true e) }
{
    let size = end_of_lines(script);
    let mut text = Vec::new(alloc);
    let taken = take_lines(alloc, world, &mut text, handlers, &script[..size]);
    mem::drop(text);
    match taken {
        Ok(count) => script_refused(alloc, count + 1),
        Err(halted) => halted_at(alloc, halted),
    }
}

// How many bytes stand up to the last line feed.
fn end_of_lines(script: &[u8]) -> usize
    ensures { EndsLines script.now result }
{
    let mut size = script.len();
    while size > 0 && script[size - 1] != b'\n' {
        size -= 1;
    }
    size
}

// The ending of a play that a line ended.
fn halted_at(alloc: Global, halted: Halted) -> Result<Ending, Memory>
    ensures { IfOk result (IsEndingAt halted.number halted.why) }
{
    match halted.why {
        Halt::Refused => script_refused(alloc, halted.number),
        Halt::JournalFull => journal_full(alloc, halted.number),
        Halt::NotWhole => not_yet(alloc),
        Halt::Memory => Err(Memory),
    }
}

fn script_refused(alloc: Global, number: usize) -> Result<Ending, Memory>
    ensures { IfOk result (λ e. e ≡ ending 9 (line (codes "script" ∷ decimal number ∷ []))) }
{
    Ok(Ending::of_string(9, format!(in alloc; "script {number}\n")?))
}

fn journal_full(alloc: Global, number: usize) -> Result<Ending, Memory>
    ensures { IfOk result (λ e. e ≡ ending 16 (line (codes "journal" ∷ decimal number ∷ []))) }
{
    Ok(Ending::of_string(16, format!(in alloc; "journal {number}\n")?))
}

fn not_yet(alloc: Global) -> Result<Ending, Memory>
    ensures { IfOk result (λ e. e ≡ not_yet) }
{
    Ending::of_text(alloc, 17, "not yet\n")
}

// The text of all changes and of the region that is left, behind that of the outcomes.
fn played(alloc: Global, world: &World, outcomes: Vec<u8>) -> Result<Ending, Memory>
    ensures { IfOk result (λ e. e ≡ ending 0 (outcomes.items ++ (changes_text (changes_of world.now.core.region.past) ++ region_text (region_after world.now.core.region.start world.now.core.region.past)))) }
{
    a_region_stays_a_region();
    let region = world.region();
    region.journal();
    let mut text = outcomes;
    changes_text(alloc, region.changes(alloc)?.as_slice(), &mut text)?;
    region_text(alloc, region.data_bytes(), region.meta_bytes(), &mut text)?;
    Ok(Ending {
        status: 0,
        text: Bytes::of_vec(text),
    })
}
