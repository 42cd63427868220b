// The lines of a script.
use change_log::Call;
use handlers::Strategy;

/// What a line of a script names.
#[derive(Drop)]
pub enum Line {
    /// The next opener, with a handler of this strategy.
    Open(Strategy),
    /// An opener begins a call at a moment.
    Begin { who: u32, now: u32, call: Call },
    /// Up to so many steps of an opener.
    Step { who: u32, count: u32 },
    /// An opener's death; the bits are those that a torn word is left with.
    Die { who: u32, torn: Option<u32> },
    /// The next call of an opener that runs by itself.
    Next { who: u32, now: u32, call: Call },
}
