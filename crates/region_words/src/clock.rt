// What tells the moment.
ghost use Rattle.std.specs.Prelude.{◌≡◌, ℕ};

/// A clock of seconds since 1970.
pub trait Clock {
    /// The moment that it gave last.
    ghost last: { Self → ℕ };

    /// The moment now.
    fn now(&mut self) -> u32
        ensures { result ≡ last self.new };
}

/// A clock that stands.
#[derive(Clone, Copy, Debug, PartialEq, Eq)]
pub struct SetClock {
    moment: u32,
}

impl SetClock {
    /// It always gives this moment.
    pub fn new(moment: u32) -> SetClock
        ensures { result ≡ record { moment = moment } }
    {
        SetClock { moment }
    }
}

impl Clock for SetClock {
    ghost last = { λ c. c.moment };

    fn now(&mut self) -> u32
        ensures moment { result ≡ self.old.moment }
        ensures last { result ≡ self.new.moment }
        ensures same { self.new ≡ self.old }
    {
        self.moment
    }
}
