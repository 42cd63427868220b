// Stores in memory, whose calls may be made to fail.
ghost use Rattle.std.specs.Prelude.{◌≡◌, ◌≢◌, Err, find};
ghost use Rattle.std.specs.Option.{option_copied};
ghost use Rattle.std.specs.Str.{bytes_eq};
ghost use Rattle.region_words.specs.Stores.{told_in, Files, IsDueOrRefused};

use crate::failing::Failing;
use crate::shelf::{Brought, LARGEST_DATA, LARGEST_META, Shelf, ShelfStop};
use expiring_map::{Bytes, Memory};
use std::alloc::Global;
use std::marker::Model;

/// A store's two files under its ID.
#[derive(Debug, Drop)]
pub struct Shelved {
    pub id: Bytes,
    pub body: Bytes,
    pub meta: Bytes,
}

/// A shelf in memory; the calls of the given numbers fail.
#[derive(Debug, Drop)]
pub struct MemShelf {
    alloc: Global,
    stores: Vec<Shelved>,
    absences: u64,
    failing: Failing,
}

impl Model for MemShelf {
    ghost use Rattle.region_words.specs.Stores.{Stack};

    ghost Value = { Stack };

    ghost view = { λ s. record { stores = s.stores.items; absences = s.absences; tally = s.failing } };
}

impl MemShelf {
    ghost use Rattle.std.specs.Prelude.{◌≡◌, ◌∷◌, [], Contains, IsErrOf, ◌↔◌, OnOk, OnErr};
    ghost use Rattle.region_words.specs.declared.mem_shelf.Shelved.{Shelved};

    /// An empty shelf, whose calls all succeed.
    pub fn new(alloc: Global) -> MemShelf
        ensures { result ≡ record { stores = []; absences = 0; tally = record { listed = []; made = 0; faults = 0 } } }
    {
        MemShelf {
            alloc,
            stores: Vec::new(alloc),
            absences: 0,
            failing: Failing::new(Vec::new(alloc)),
        }
    }

    /// Puts a store there in place of what stood under its ID.
    pub fn add(&mut self, id: Bytes, body: Vec<u8>, meta: Vec<u8>) -> Result<(), Memory>
        ensures ok { OnOk result (self.new ≡
            record self.old { stores = record { id = id; body = body.items; meta = meta.items } ∷ self.old.stores }) }
        ensures err { OnErr result (self.new ≡ self.old) }
    {
        let store = Shelved {
            id,
            body: Bytes::of_vec(body),
            meta: Bytes::of_vec(meta),
        };
        self.stores.insert(0, store)?;
        Ok(())
    }

    /// The calls of these numbers, counted from 0, are to fail.
    pub fn fail_at(&mut self, calls: Vec<u64>)
        ensures { self.new ≡ record self.old { tally = record self.old.tally { listed = calls.items } } }
    {
        self.failing.list(calls);
    }
}

impl Shelf for MemShelf {
    ghost use Rattle.std.specs.Prelude.{◌≡◌, ◌≢◌, ℕ, ◌<◌, ◌≤◌, ◌↔◌, List, Err, length, IfOk, IsErrOf, Contains};
    ghost use Rattle.region_words.specs.Outside.{Rose};
    ghost use Rattle.region_words.specs.Stores.{told_in, IsDueOrRefused};

    ghost faults = { λ s. s.tally.faults };

    ghost absences = { λ s. s.absences };

    ghost stores = { λ s id. told_in s.stores id };

    fn bring(&mut self, id: &[u8]) -> Result<Brought, ShelfStop>
        ensures told { IsDueOrRefused (told_in self.old.stores id.now) result }
        ensures data_size { IfOk result (λ b. length b.body ≤ LARGEST_DATA) }
        ensures meta_size { IfOk result (λ b. length b.meta ≤ LARGEST_META) }
        ensures absent { IsErrOf result ShelfStop.Absent → Rose self.old.absences self.new.absences }
        ensures absences_never_fall { self.old.absences ≤ self.new.absences }
        ensures failed { IsErrOf result ShelfStop.Failed → Rose self.old.tally.faults self.new.tally.faults }
        ensures steady { result ≢ Err ShelfStop.Failed → self.new.tally.faults ≡ self.old.tally.faults }
        ensures never_falls { self.old.tally.faults ≤ self.new.tally.faults }
        ensures same { (other : List ℕ) → told_in self.new.stores other ≡ told_in self.old.stores other }
        ensures fails { IsErrOf result ShelfStop.Failed ↔ Contains self.old.tally.listed self.old.tally.made }
    {
        if self.failing.next_fails() {
            return Err(ShelfStop::Failed);
        }
        match store_of(&self.stores, id) {
            Some(store) => copy_of(self.alloc, store),
            None => {
                self.absences = self.absences.saturating_add(1);
                Err(ShelfStop::Absent)
            }
        }
    }
}

// The store of this ID.
fn store_of<'a>(stores: &'a [Shelved], id: &[u8]) -> Option<&'a Shelved>
    ensures { option_copied result ≡ find (λ s. bytes_eq s.id id.now) stores.now }
{
    stores.iter().find(|store| store.id.as_slice() == id)
}

// Both files of a store, or the length of the first that is over its limit.
fn copy_of(alloc: Global, store: &Shelved) -> Result<Brought, ShelfStop>
    ensures due { IsDueOrRefused (Files store.now.body store.now.meta) result }
    ensures kept { result ≢ Err ShelfStop.Failed }
{
    let body = store.body.as_slice();
    let meta = store.meta.as_slice();
    if body.len() > LARGEST_DATA {
        return Err(ShelfStop::SizeRefused(body.len() as u64));
    }
    if meta.len() > LARGEST_META {
        return Err(ShelfStop::SizeRefused(meta.len() as u64));
    }
    match (Bytes::copy_of(alloc, body), Bytes::copy_of(alloc, meta)) {
        (Ok(body), Ok(meta)) => Ok(Brought { body, meta }),
        _ => Err(ShelfStop::Memory),
    }
}
