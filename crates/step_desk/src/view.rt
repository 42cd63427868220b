// What a pass knows of its desk.
use region_words::{Event, LocalRegion};
use std::collections::LinkedList;

/// How far a pass is with its turn.
pub enum Stage {
    /// It hasn't the turn.
    Idle,
    /// It has the turn, and the region with it.
    Holding,
    /// It has stored the number of events, too.
    Counted,
}

/// What a pass knows of its desk. It stands in proofs alone, and no value of it is made.
pub struct View {
    /// No other pass has taken it in.
    pub live: bool,
    pub stage: Stage,
    pub who: u32,
    /// The region with which the desk began.
    pub about: LocalRegion,
    /// The journal that it has seen, the newest event first.
    pub seen: LinkedList<Event>,
    /// While it has the turn: the region as the desk knows it.
    pub held: LocalRegion,
    /// Right after it took in another pass: the shorter of the two journals that they had seen.
    pub told: LinkedList<Event>,
    /// The numbers of which no event came after `told`.
    pub told_of: LinkedList<u32>,
    /// The places that its opener has reserved.
    pub places: u32,
    /// The size of the data file for which its opener has reserved room.
    pub room: u32,
    /// How many of its tries were refused the turn.
    pub turns: u64,
    /// The numbers that it may hand out.
    pub hands: LinkedList<u32>,
    /// The numbers that it has taken in.
    pub taken: LinkedList<u32>,
}
