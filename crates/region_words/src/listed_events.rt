// A few stores and growths in a list, made one after another.
ghost use Rattle.std.specs.Prelude.{◌≡◌, ◌≢◌, ◌<◌, [], All, Some, false, length, OnErr, OnOk, IfErr};
ghost use Rattle.region_words.specs.Coming.{IsStoring};
ghost use Rattle.region_words.specs.Share.{Goes, MayMake, Stops, stored};
ghost use Rattle.region_words.specs.Owing.{IsWithin};
ghost use Rattle.region_words.specs.Making.{next_of, IsOwingFirst, MakesFirst};

use crate::event::{Mark, What};
use crate::next::Next;
use crate::share::Share;
use crate::stops::ShareStop;
use lock_rules::LockKind;
use std::marker::Model;
use std::mem;

/// Stores and growths in their order, as far as they are still to be made.
#[derive(Drop)]
pub struct ListedEvents {
    events: Vec<What>,
    made: usize,
}

impl Model for ListedEvents {
    ghost use Rattle.std.specs.Prelude.{List, drop, vec_len, ◌≤◌, All};
    ghost use Rattle.region_words.specs.Coming.{IsStoring};
    ghost use Rattle.region_words.specs.declared.event.What.{What};

    ghost Value = { List What };

    ghost view = { λ l. drop l.made l.events.items };

    ghost invariant = { λ l. (l.made ≤ vec_len l.events) × All IsStoring l.events.items };
}

impl ListedEvents {
    /// None of them is made yet.
    pub fn new(events: Vec<What>) -> ListedEvents
        requires { All IsStoring events.items }
        ensures { result ≡ events.items }
    {
        ListedEvents { events, made: 0 }
    }

    /// How many are left.
    pub fn left(&self) -> usize
        ensures { result ≡ length self.now }
    {
        self.events.len() - self.made
    }

    /// The first that is left.
    pub fn next(&self) -> Next
        ensures { result ≡ next_of self.now }
    {
        match self.events.get(self.made) {
            Some(
                What::Store {
                    side,
                    word,
                    value,
                    ..
                },
            ) => Next::Store {
                side: *side,
                word: *word,
                value: *value,
            },
            Some(What::Grow { size }) => Next::Grow(*size),
            _ => Next::End,
        }
    }

    /// Makes the first that is left. After an error it is left still.
    pub fn make_first<S: Share>(&mut self, share: &mut S) -> Result<(), ShareStop>
        requires some { self.old ≢ [] }
        requires owing { IsOwingFirst self.old (S.state share.old) }
        ensures ok { OnOk result (MakesFirst self.old self.new (S.state share.old) (S.state share.new)) }
        ensures err { IfErr result (λ stop. Stops stop (S.state share.old) (S.state share.new)) }
        ensures same { OnErr result (self.new ≡ self.old) }
    {
        make(&mut self.events[self.made], share)?;
        self.made += 1;
        Ok(())
    }
}

// Makes a store or a growth. The mark goes with the store, and comes back after an error.
fn make<S: Share>(what: &mut What, share: &mut S) -> Result<(), ShareStop>
    requires storing { IsStoring what.old }
    requires alive { (S.state share.old).ended ≡ false }
    requires held { (S.state share.old).holds ≡ Some LockKind.Exclusive }
    requires place { 0 < (S.state share.old).reserved (S.state share.old).who }
    requires room { IsWithin ((S.state share.old).room (S.state share.old).who) what.old }
    requires lawful { MayMake what.old (S.state share.old) }
    ensures ok { OnOk result (Goes (stored what.old (S.state share.old)) (S.state share.old) (S.state share.new)) }
    ensures storing { IsStoring what.new }
    ensures err { IfErr result (λ stop. Stops stop (S.state share.old) (S.state share.new)) }
    ensures same { OnErr result (what.new ≡ what.old) }
{
    match what {
        What::Store {
            side,
            word,
            value,
            mark,
        } => {
            let taken = mem::replace(mark, Mark::Plain);
            match share.store(*side, *word, *value, taken) {
                Ok(()) => Ok(()),
                Err(unstored) => {
                    *mark = unstored.mark;
                    Err(unstored.stop)
                }
            }
        }
        What::Grow { size } => share.grow(*size),
        _ => Ok(()),
    }
}
