// The events of a row, made one by one over any share.
ghost use Rattle.std.specs.Prelude.{◌≡◌, ◌≢◌, ◌+◌, ◌<◌, ◌^◌, [], ◌++◌, length, OnErr, OnOk, IfErr, IfOk};
ghost use Rattle.region_words.specs.Rows.{Row};
ghost use Rattle.region_words.specs.Share.{Stops};
ghost use Rattle.region_words.specs.Owing.{IsOwing};
ghost use Rattle.region_words.specs.Making.{Making, next_of, stored_of, MakesFirst};

use crate::listed_events::ListedEvents;
use crate::next::{Next, Stored};
use crate::payload_words::PayloadWords;
use crate::share::Share;
use crate::standing::Standing;
use crate::stops::ShareStop;
use std::marker::Model;

/// The events of a row that are still to come: those before its payload, the payload's words, and those after it.
#[derive(Drop)]
pub struct RowMaker {
    before: ListedEvents,
    payload: PayloadWords,
    after: ListedEvents,
    room: u32,
    standing: Standing,
}

impl Model for RowMaker {
    ghost use Rattle.std.specs.Prelude.{◌++◌, ◌<◌, ◌^◌, ◌+◌, length};
    ghost use Rattle.region_words.specs.Making.{Making};

    ghost Value = { Making };

    ghost view = { λ m. record { events = m.before ++ (m.payload ++ m.after); room = m.room; standing = m.standing } };

    ghost invariant = { λ m. length m.before + (length m.payload + length m.after) < 2 ^ 32 };
}

impl RowMaker {
    /// A row of which nothing is made yet. `room` is the size to which it grows the data file, 0 where it doesn't, and
    /// `standing` is what is known of the image once it is whole.
    pub fn new(
        before: ListedEvents,
        payload: PayloadWords,
        after: ListedEvents,
        room: u32,
        standing: Standing,
    ) -> RowMaker
        requires { length before + (length payload + length after) < 2 ^ 32 }
        ensures { result ≡ record { events = before ++ (payload ++ after); room = room; standing = standing } }
    {
        RowMaker {
            before,
            payload,
            after,
            room,
            standing,
        }
    }

    /// How many events are still to come.
    pub fn events(&self) -> u32
        ensures { result ≡ length self.now.events }
    {
        (self.before.left() + self.payload.left() + self.after.left()) as u32
    }

    /// The size to which the row grows the data file, in bytes, and 0 where it doesn't.
    pub fn room(&self) -> u32
        ensures { result ≡ self.now.room }
    {
        self.room
    }

    /// The event that comes next.
    pub fn next(&self) -> Next
        ensures { result ≡ next_of self.now.events }
    {
        if self.before.left() > 0 {
            return self.before.next();
        }
        if self.payload.left() > 0 {
            return self.payload.next();
        }
        self.after.next()
    }

    /// Makes the event that comes next, with one call on the share. After an error it is still to come.
    pub fn step<S: Share>(&mut self, share: &mut S) -> Result<Stored, ShareStop>
        requires some { self.old.events ≢ [] }
        requires owing { (row : Row) × IsOwing row self.old.events (S.state share.old) }
        ensures made { OnOk result (MakesFirst self.old.events self.new.events (S.state share.old) (S.state share.new)) }
        ensures stored { IfOk result (λ stored. stored ≡ stored_of self.new.events) }
        ensures kept { OnOk result ((self.new.room ≡ self.old.room) × (self.new.standing ≡ self.old.standing)) }
        ensures owing { OnOk result ((row : Row) → IsOwing row self.old.events (S.state share.old) → IsOwing row self.new.events (S.state share.new)) }
        ensures err { IfErr result (λ stop. Stops stop (S.state share.old) (S.state share.new)) }
        ensures same { OnErr result (self.new ≡ self.old) }
    {
        self.make_first(share)?;
        Ok(self.progress())
    }

    // Makes the first event that is left.
    fn make_first<S: Share>(&mut self, share: &mut S) -> Result<(), ShareStop>
        requires some { self.old.events ≢ [] }
        requires owing { (row : Row) × IsOwing row self.old.events (S.state share.old) }
        ensures ok { OnOk result (MakesFirst self.old.events self.new.events (S.state share.old) (S.state share.new)) }
        ensures kept { OnOk result ((self.new.room ≡ self.old.room) × (self.new.standing ≡ self.old.standing)) }
        ensures err { IfErr result (λ stop. Stops stop (S.state share.old) (S.state share.new)) }
        ensures same { OnErr result (self.new ≡ self.old) }
    {
        if self.before.left() > 0 {
            self.before.make_first(share)
        } else if self.payload.left() > 0 {
            self.payload.store_first(share)
        } else {
            self.after.make_first(share)
        }
    }

    // Whether events are left.
    fn progress(&self) -> Stored
        ensures { result ≡ stored_of self.now.events }
    {
        if self.events() > 0 {
            Stored::More
        } else {
            Stored::Done
        }
    }

    /// What is known of the image once the row is whole, whatever is still to come.
    pub fn standing(&self) -> Standing
        ensures { result ≡ self.now.standing }
    {
        self.standing
    }
}
