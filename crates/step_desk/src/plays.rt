// The rule of the table, and what each kind of step on it tells. The types here have no values.
ghost use Rattle.std.specs.Prelude.{ℕ};

use crate::view::View;
use atomic_table::{Join, Play, Seat, Shared, Split, TableRule};
use region_words::LocalRegion;
use std::marker::{Brand, PhantomData};
use std::snapshot::Snapshot;

pub type Slot = Option<LocalRegion>;

pub type Token = Seat<Slot, View>;

// What a table is told as it is made: the region, and the number of seats.
#[derive(Drop)]
pub struct Beginning {
    pub region: Snapshot<LocalRegion>,
    pub seats: u32,
}

pub struct DeskRule;

impl TableRule<Slot, View, Beginning> for DeskRule {
    ghost use Rattle.step_desk.specs.Rule.{TableIs, newcomer};

    ghost holds = { λ k. TableIs k.region.value k.seats };

    ghost first = { λ k. newcomer k.region.value k.seats };
}

pub type Board = Shared<Slot, View, Beginning, DeskRule>;

pub struct Takes;

impl Play<Slot, View> for Takes {
    ghost use Rattle.step_desk.specs.Steps.{takes_turn};

    ghost then = { takes_turn };
}

pub struct Shows;

impl Play<Slot, View> for Shows {
    ghost use Rattle.step_desk.specs.Steps.{shows};

    ghost then = { shows };
}

pub struct Counts;

impl Play<Slot, View> for Counts {
    ghost use Rattle.step_desk.specs.Steps.{counts};

    ghost then = { counts };
}

pub struct Gives;

impl Play<Slot, View> for Gives {
    ghost use Rattle.step_desk.specs.Steps.{gives_turn};

    ghost then = { gives_turn };
}

pub struct PeeksAtChecksum;

impl Play<Slot, View> for PeeksAtChecksum {
    ghost use Rattle.step_desk.specs.Steps.{peeks_at_checksum};

    ghost then = { peeks_at_checksum };
}

pub struct PeeksAtSequence;

impl Play<Slot, View> for PeeksAtSequence {
    ghost use Rattle.step_desk.specs.Steps.{peeks_at_sequence};

    ghost then = { peeks_at_sequence };
}

pub struct Settles;

impl Play<Slot, View> for Settles {
    ghost use Rattle.step_desk.specs.Steps.{settles};

    ghost then = { settles };
}

// The number that a split hands out. Its caller picks it.
pub trait Number {
    ghost number: { ℕ };
}

impl Number for Brand {
    ghost number = { 0 };
}

pub struct Hands<W> {
    number: PhantomData<W>,
}

impl<W: Number> Split<View> for Hands<W> {
    ghost use Rattle.step_desk.specs.Steps.{keeper, handed};

    ghost left = { λ v. keeper v W.number };

    ghost right = { λ v. handed v W.number };
}

pub struct TakesIn;

impl Join<View> for TakesIn {
    ghost use Rattle.step_desk.specs.Steps.{joined, spent};

    ghost both = { joined };

    ghost spent = { spent };
}
