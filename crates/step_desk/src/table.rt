// The desk.
ghost use Rattle.std.specs.Prelude.{◌≡◌, ◌≤◌, [], IfErr, IfOk};
ghost use Rattle.lock_rules.specs.declared.limits.TheConstants.{MOST_OPENERS};
ghost use Rattle.step_desk.specs.Numbers.{HasAll};
ghost use Rattle.step_desk.specs.Rule.{newcomer};
ghost use Rattle.step_desk.specs.Passes.{DeskState, HasShape, no_counts};

use crate::plays::{Beginning, Board, DeskRule, Slot};
use crate::seat::{Pass, Seat};
use crate::steps::{mirror, shown_of};
use crate::view::View;
use atomic_table::Table;
use expiring_map::Memory;
use region_words::LocalRegion;
use std::alloc::Global;
use std::marker::Model;
use std::snapshot::Snapshot;

/// A region that openers share on threads.
#[derive(Drop)]
pub struct Desk {
    table: Table<Slot, View, Beginning, DeskRule, Global>,
}

impl Model for Desk {
    ghost use Rattle.step_desk.specs.Passes.{DeskState, HasShape};

    ghost Value = { DeskState };

    ghost view = { λ d. record { table = d.table.shared.table_id; about = d.table.shared.key.region.value; seats = d.table.shared.key.seats } };

    ghost invariant = { λ d. HasShape d.table.shared.table_id };
}

impl Desk {
    /// A desk for so many openers at this region, with the pass of opener 1, which may hand out the other numbers. An opener
    /// that isn't admitted in the region has a seat that is ended.
    pub fn new(alloc: Global, region: LocalRegion, seats: u32) -> Result<(Desk, Pass), Memory>
        requires least { 1 ≤ seats }
        requires most { seats ≤ MOST_OPENERS }
        requires empty { region.past ≡ [] }
        ensures desk { IfOk result (λ r. (r.0.about ≡ region) × (r.0.seats ≡ seats)) }
        ensures pass { IfOk result (λ r. r.1 ≡ record { table = r.0.table; view = newcomer region seats; counts = no_counts }) }
    {
        region.good();
        let beginning = Beginning {
            region: Snapshot::of(&region),
            seats,
        };
        let seat = region.seat(1);
        let shown = shown_of(&seat);
        let mut slots = Vec::new(alloc);
        slots.push(Some(seat.into_region())).map_err(|_| Memory)?;
        let checksum = mirror(shown.checksum, shown.changes);
        let sequence = mirror(shown.sequence, shown.changes);
        let Ok((table, token)) = Table::new(alloc, &[0, 0, checksum, sequence], slots, &beginning)
        else {
            return Err(Memory);
        };
        Ok((Desk { table }, Pass::first(token)))
    }

    pub(crate) fn board(&self) -> &Board
        ensures { (result.now.table_id ≡ self.now.table) × HasShape self.now.table }
    {
        &self.table.shared
    }

    /// The seat of a pass at this desk.
    pub fn seat(&self, pass: Pass) -> Seat<'_>
        requires { pass.table ≡ self.now.table }
        ensures { result ≡ pass }
    {
        Seat::of(self, pass)
    }

    /// Ends the desk. The pass answers for every number, so it has seen all that happened.
    pub fn close(self, pass: Pass) -> LocalRegion
        requires desk { pass.table ≡ self.table }
        requires all { HasAll self.seats pass.view }
        ensures journal { result.past ≡ pass.view.seen }
        ensures start { result.start ≡ self.about.start }
        ensures fails { result.failing.listed ≡ self.about.failing.listed }
    {
        let Desk { table } = self;
        let mut closed = table.close_with(pass.into_token());
        let region = closed.take(0);
        closed.free();
        region.unwrap()
    }
}
