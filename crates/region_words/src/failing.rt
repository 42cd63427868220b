// Calls that are to fail, by their numbers: how faults of the outside are tried.
ghost use Rattle.std.specs.Prelude.{◌≡◌, ◌≤◌, ◌↔◌, IsTrue, Contains};
ghost use Rattle.region_words.specs.Outside.{after_call, one_more};

use std::marker::Model;

/// Counts the calls made, and picks those that are to fail.
#[derive(Debug, Drop)]
pub struct Failing {
    listed: Vec<u64>,
    made: u64,
    faults: u64,
}

impl Model for Failing {
    ghost use Rattle.region_words.specs.Outside.{Tally};

    ghost Value = { Tally };

    ghost view = { λ f. record { listed = f.listed.items; made = f.made; faults = f.faults } };
}

impl Failing {
    /// No call was made yet; the calls of these numbers, counted from 0, are to fail.
    pub fn new(listed: Vec<u64>) -> Failing
        ensures { result ≡ record { listed = listed.items; made = 0; faults = 0 } }
    {
        Failing {
            listed,
            made: 0,
            faults: 0,
        }
    }

    /// From now on the calls of these numbers are to fail.
    pub fn list(&mut self, listed: Vec<u64>)
        ensures { self.new ≡ record self.old { listed = listed.items } }
    {
        self.listed = listed;
    }

    /// Counts one more call, and says whether it is to fail.
    pub fn next_fails(&mut self) -> bool
        ensures fails { IsTrue result ↔ Contains self.old.listed self.old.made }
        ensures after { self.new ≡ after_call self.old result }
        ensures never_falls { self.old.faults ≤ self.new.faults }
    {
        let fails = self.listed.contains(&self.made);
        self.made = self.made.saturating_add(1);
        if fails {
            self.faults = self.faults.saturating_add(1);
        }
        fails
    }

    /// Counts a fault that no list asked for.
    pub fn fault(&mut self)
        ensures after { self.new ≡ record self.old { faults = one_more self.old.faults } }
        ensures never_falls { self.old.faults ≤ self.new.faults }
    {
        self.faults = self.faults.saturating_add(1);
    }
}
