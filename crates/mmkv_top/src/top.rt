// The top call.
ghost use Rattle.std.specs.Prelude.{[], ◌≡◌, ◌≢◌, ℕ, List, codes};
ghost use Rattle.region_words.specs.Outside.{Rose};
ghost use Rattle.mmkv_top.specs.Stocked.{OfAll};
ghost use Rattle.mmkv_top.specs.Command.{IsNamed, IsNoCommand};
ghost use Rattle.mmkv_top.specs.Ending.{EndsWith, IsDueOr, ending};
ghost use Rattle.mmkv_top.specs.Due.{IsDump, IsPlay};
ghost use Rattle.script_lang.specs.Played.{stock_of};

use crate::command::{Command, command_of};
use crate::dump::dump;
use crate::ending::{Ending, Status, deliver};
use crate::play::play;
use expiring_map::Bytes;
use handlers::HandlerStock;
use region_words::{Shelf, Sink, Source};
use std::alloc::Global;

/// Does what the words ask of a shelf of stores, and writes what comes of it. The first word names the directory; the
/// caller has made the shelf of it. The whole text is made before the first byte is written.
pub fn run<D: Shelf, S: Source, K: Sink>(
    alloc: Global,
    words: &[Bytes],
    shelf: &mut D,
    input: &mut S,
    out: &mut K,
    mut stock: HandlerStock,
) -> Status
    // What each command ends with. Instead the shelf, the source or the sink had a fault, or memory was refused.
    requires fresh { OfAll (λ h. (told h ≡ []) × (changes_told h ≡ [])) stock }
    ensures usage { IsNoCommand words.now → EndsWith (K.written out.old) (K.written out.new)
        (Rose (K.faults out.old) (K.faults out.new)) (Rose (D.faults shelf.old) (D.faults shelf.new)) result
        (λ e. e ≡ ending 2 (codes "usage\n")) }
    ensures dump { (id : List ℕ) → IsNamed words.now (codes "dump") id → EndsWith (K.written out.old) (K.written out.new)
        (Rose (K.faults out.old) (K.faults out.new)) (Rose (D.faults shelf.old) (D.faults shelf.new)) result
        (IsDump (D.stores shelf.old id)) }
    ensures play { (id : List ℕ) → IsNamed words.now (codes "play") id → EndsWith (K.written out.old) (K.written out.new)
        (Rose (K.faults out.old) (K.faults out.new)) (Rose (D.faults shelf.old) (D.faults shelf.new)) result
        (IsPlay (stock_of stock) (S.left input.old) (S.left input.new) (Rose (S.faults input.old) (S.faults input.new)) (D.stores shelf.old id)) }

    // Each fault has its cause.
    ensures usage_only { result.0 ≡ 2 → IsNoCommand words.now }
    ensures read_fault { result.0 ≡ 3 → Rose (S.faults input.old) (S.faults input.new) }
    ensures write_fault { result.0 ≡ 4 → Rose (K.faults out.old) (K.faults out.new) }
    ensures region_fault { result.0 ≡ 5 → Rose (D.faults shelf.old) (D.faults shelf.new) }

    // What stays, and which faults can't have come where another status is answered.
    ensures same { (id : List ℕ) → D.stores shelf.new id ≡ D.stores shelf.old id }
    ensures clean { result.0 ≢ 4 → result.0 ≢ 5 → result.0 ≢ 8 → D.faults shelf.new ≡ D.faults shelf.old }
    ensures clean_input { result.0 ≢ 3 → result.0 ≢ 4 → result.0 ≢ 8 → S.faults input.new ≡ S.faults input.old }
    ensures clean_output { result.0 ≢ 4 → K.faults out.new ≡ K.faults out.old }
{
    deliver(&plan(alloc, words, shelf, input, &mut stock), out)
}

// What the run is to end with.
fn plan<D: Shelf, S: Source>(
    alloc: Global,
    words: &[Bytes],
    shelf: &mut D,
    input: &mut S,
    handlers: &mut HandlerStock,
) -> Ending
    requires fresh { OfAll (λ h. (told h ≡ []) × (changes_told h ≡ [])) handlers.old }
    ensures usage { IsNoCommand words.now → IsDueOr (Rose (D.faults shelf.old) (D.faults shelf.new)) (λ e. e ≡ ending 2 (codes "usage\n")) result }
    ensures dump { (id : List ℕ) → IsNamed words.now (codes "dump") id →
        IsDueOr (Rose (D.faults shelf.old) (D.faults shelf.new)) (IsDump (D.stores shelf.old id)) result }
    ensures play { (id : List ℕ) → IsNamed words.now (codes "play") id →
        IsDueOr (Rose (D.faults shelf.old) (D.faults shelf.new))
        (IsPlay (stock_of handlers.old) (S.left input.old) (S.left input.new) (Rose (S.faults input.old) (S.faults input.new)) (D.stores shelf.old id)) result }
    ensures usage_only { result.status ≡ 2 → IsNoCommand words.now }
    ensures read_fault { result.status ≡ 3 → Rose (S.faults input.old) (S.faults input.new) }
    ensures no_write { result.status ≢ 4 }
    ensures region_fault { result.status ≡ 5 → Rose (D.faults shelf.old) (D.faults shelf.new) }
    ensures same { (id : List ℕ) → D.stores shelf.new id ≡ D.stores shelf.old id }
    ensures clean { result.status ≢ 5 → result.status ≢ 8 → D.faults shelf.new ≡ D.faults shelf.old }
    ensures clean_input { result.status ≢ 3 → result.status ≢ 8 → S.faults input.new ≡ S.faults input.old }
{
    match command_of(words) {
        Some(Command::Dump { id }) => dump(alloc, shelf, id),
        Some(Command::Play { id }) => play(alloc, shelf, id, input, handlers),
        None => match Ending::of_text(alloc, 2, "usage\n") {
            Ok(ending) => ending,
            Err(_) => Ending::no_memory(alloc),
        },
    }
}
