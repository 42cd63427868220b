// A law about seats: the contract of a function that does nothing.
ghost use Rattle.step_desk.specs.Passes.{SeatsStay};

/// Whatever is done with a seat as a share, it stays at its desk, and keeps its numbers: it can be joined, or closed with.
pub fn a_seat_stays_at_its_desk()
    ensures { SeatsStay }
{}
