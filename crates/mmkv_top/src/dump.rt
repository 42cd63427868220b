// The command `dump`.
ghost use Rattle.std.specs.Prelude.{◌≡◌, ◌≢◌, ℕ, ◌≤◌, ◌∷◌, List, IfOk, length};
ghost use Rattle.region_words.specs.Outside.{Rose};
ghost use Rattle.region_words.specs.Region.{region_of, shown};
ghost use Rattle.region_words.specs.Stores.{IsId};
ghost use Rattle.script_lang.specs.Texts.{region_text};
ghost use Rattle.mmkv_top.specs.Ending.{ending, IsDueOr};
ghost use Rattle.mmkv_top.specs.Due.{IsAmong, dump_statuses, IsDump, IsDumpOf, IsEndingOf, dump_of, region_in};

use crate::ending::Ending;
use crate::refusals::{refused, unbrought};
use expiring_map::{Bytes, Memory};
use meta_record::Shown;
use region_words::{Brought, Shelf, ShelfStop, fill_up, shown};
use script_lang::{damage_text, shown_region_text};
use std::alloc::Global;

/// Writes what a store's region shows. It repairs nothing.
pub(crate) fn dump<D: Shelf>(alloc: Global, shelf: &mut D, id: &[u8]) -> Ending
    requires { IsId id.now }
    ensures due { IsDueOr (Rose (D.faults shelf.old) (D.faults shelf.new)) (IsDump (D.stores shelf.old id.now)) result }
    ensures same { (other : List ℕ) → D.stores shelf.new other ≡ D.stores shelf.old other }
    ensures statuses { IsAmong (5 ∷ 8 ∷ dump_statuses) result.status }
    ensures fault { result.status ≡ 5 → Rose (D.faults shelf.old) (D.faults shelf.new) }
    ensures clean { result.status ≢ 5 → result.status ≢ 8 → D.faults shelf.new ≡ D.faults shelf.old }
{
    let brought = shelf.bring(id);
    match dump_brought(alloc, brought) {
        Ok(ending) => ending,
        Err(Memory) => Ending::no_memory(alloc),
    }
}

fn dump_brought(alloc: Global, brought: Result<Brought, ShelfStop>) -> Result<Ending, Memory>
    ensures { IfOk result (λ e. IsEndingOf IsDumpOf brought e) }
{
    match brought {
        Ok(brought) => dump_files(alloc, brought),
        Err(stop) => unbrought(alloc, stop),
    }
}

fn dump_files(alloc: Global, brought: Brought) -> Result<Ending, Memory>
    ensures { IfOk result (λ e. e ≡ dump_of (region_in brought.body brought.meta)) }
{
    let body = fill_up(brought.body.into_vec())?;
    let meta = fill_up(brought.meta.into_vec())?;
    dump_region(alloc, &body, &meta)
}

fn dump_region(alloc: Global, body: &[u8], meta: &[u8]) -> Result<Ending, Memory>
    requires data { 4 ≤ length body.now }
    requires meta { 112 ≤ length meta.now }
    ensures { IfOk result (λ e. e ≡ dump_of (region_of body.now meta.now)) }
{
    match shown(body, meta) {
        Ok(Shown::Damaged(damage)) => Ok(Ending::of_string(
            6,
            format!(in alloc; "{}\n", damage_text(damage))?,
        )),
        Ok(shown) => whole_text(alloc, body, meta, shown),
        Err(fault) => refused(alloc, fault),
    }
}

fn whole_text(alloc: Global, body: &[u8], meta: &[u8], seen: Shown) -> Result<Ending, Memory>
    requires data { 4 ≤ length body.now }
    requires meta { 112 ≤ length meta.now }
    requires seen { seen ≡ shown (region_of body.now meta.now) }
    ensures { IfOk result (λ e. e ≡ ending 0 (region_text (region_of body.now meta.now))) }
{
    let mut text = Vec::new(alloc);
    shown_region_text(alloc, body, meta, seen, &mut text)?;
    Ok(Ending {
        status: 0,
        text: Bytes::of_vec(text),
    })
}
