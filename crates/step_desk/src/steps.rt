// The steps of a pass on the table of its desk.
ghost use Rattle.std.specs.Prelude.{◌/◌, ◌%◌, max, ◌≡◌, ◌≢◌, ◌+◌, ◌*◌, [], List, IfOk, IfErr, OnOk, true};
ghost use Rattle.region_words.specs.Outside.{one_more};
ghost use Rattle.region_words.specs.declared.event.What.{What};
ghost use Rattle.region_words.specs.Local.{Local};
ghost use Rattle.step_desk.specs.declared.view.Stage.TheVariants.{Counted, Idle};
ghost use Rattle.step_desk.specs.Mirrors.{checksum_after, changes_made, sequence_after};
ghost use Rattle.step_desk.specs.Numbers.{Among};
ghost use Rattle.step_desk.specs.Steps.{IsReady, PutsBack, CanCount, Looked, HandsAreFresh, seeing, seeing_slot, idle, turned_away, keeper, handed, joined, longer, shorter, numbers_of_shorter, Follows};
ghost use Rattle.step_desk.specs.Passes.{HasShape, IsShown, IsTaken, PassIs, counts_after_stop, no_counts};

use crate::counts::CallCounts;
use crate::plays::{
    Board, Counts, Gives, Hands, Number, PeeksAtChecksum, PeeksAtSequence, Settles, Shows, Takes,
    TakesIn, Token,
};
use meta_record::{WORD_CHECKSUM, WORD_SEQUENCE, load_word};
use region_words::{LocalSeat, Peek, Share, ShareStop};

// The words of the table.
const COUNT: usize = 0;

const TURN: usize = 1;

const CHECKSUM: usize = 2;

const SEQUENCE: usize = 3;

// The number of changes stands this far above the checksum.
const ABOVE: u64 = 4_294_967_296;

/// What an opener holds of a desk.
#[derive(Drop)]
pub struct Hand {
    pub token: Token,
    pub who: u32,
    /// The number of changes that it has seen.
    pub made: u32,
    pub counts: CallCounts,
}

/// What the table is to show of a region.
#[derive(Clone, Copy)]
pub struct Shown {
    pub checksum: u32,
    pub sequence: u32,
    pub changes: u32,
    pub events: u64,
}

// A word of the record, with the number of changes above it.
pub fn mirror(word: u32, changes: u32) -> u64
    ensures { result ≡ word + 4294967296 * changes }
{
    u64::from(word) + ABOVE * u64::from(changes)
}

/// A region that was taken from its desk, and what the table shows of it.
#[derive(Drop)]
pub struct Taken {
    pub region: LocalSeat,
    pub before: Shown,
}

#[tactic(auto, unfolding(crate::specs::Mirrors::checksum_after, crate::specs::Mirrors::sequence_after))]
pub fn shown_of(seat: &LocalSeat) -> Shown
    ensures { IsShown result.checksum result.sequence result.changes result.events seat.now.region.start seat.now.region.past }
{
    let region = seat.region();
    let events = region.journal().len() as u64;
    let meta = region.meta_bytes();
    Shown {
        checksum: load_word(meta, WORD_CHECKSUM),
        sequence: load_word(meta, WORD_SEQUENCE),
        changes: seat.changes(),
        events,
    }
}

// Tries once to take the turn, and the region with it.
pub fn take(board: &Board, hand: &mut Hand) -> Result<Taken, ShareStop>
    requires table { (hand.old.token.table_id ≡ board.now.table_id) × HasShape board.now.table_id }
    requires pass { PassIs hand.old.token.me hand.old.who hand.old.made }
    ensures same { (hand.new.token.table_id ≡ hand.old.token.table_id) × (hand.new.who ≡ hand.old.who) × (hand.new.made ≡ hand.old.made) × (hand.new.counts ≡ hand.old.counts) }
    ensures ok { IfOk result (λ t. IsTaken hand.old.token.me t.region hand.new.token.me) }
    ensures before { IfOk result (λ t. IsShown t.before.checksum t.before.sequence t.before.changes t.before.events t.region.region.start t.region.region.past) }
    ensures err { IfErr result (λ stop. (stop ≡ ShareStop.Turn) × (hand.new.token.me ≡ (turned_away hand.old.token.me.0, hand.old.token.me.1))) }
    ensures refused { IfErr result (λ _. PassIs hand.new.token.me hand.new.who hand.new.made) }
{
    if board.compare_exchange::<Takes>(&mut hand.token, TURN, 0, u64::from(hand.who)) != 0 {
        return Err(ShareStop::Turn);
    }
    let region = board.exchange(&mut hand.token, 0, None).unwrap();
    let region = region.seat(hand.who);
    let before = shown_of(&region);
    Ok(Taken { region, before })
}

// Stores the count, and gives back the turn, and the region with it.
fn count_and_give(board: &Board, token: &mut Token, count: u64)
    requires table { (token.old.table_id ≡ board.now.table_id) × HasShape board.now.table_id }
    requires holds { (own : List What) × (x : Local) × CanCount own token.old.me x count }
    ensures table { token.new.table_id ≡ token.old.table_id }
    ensures given { token.new.me ≡ (idle (seeing_slot token.old.me.0 Counted token.old.me.1), []) }
{
    board.store::<Counts>(token, COUNT, count);
    board.store::<Gives>(token, TURN, 0);
}

// Puts the region back, and gives the turn.
pub fn put(board: &Board, hand: &mut Hand, taken: Taken)
    requires table { (hand.old.token.table_id ≡ board.now.table_id) × HasShape board.now.table_id }
    requires holds { (own : List What) × PutsBack own hand.old.token.me taken.region.region }
    requires checksum { taken.before.checksum ≡ checksum_after taken.region.region.start hand.old.token.me.0.seen }
    requires sequence { taken.before.sequence ≡ sequence_after taken.region.region.start hand.old.token.me.0.seen }
    ensures same { (hand.new.token.table_id ≡ hand.old.token.table_id) × (hand.new.who ≡ hand.old.who) × (hand.new.counts ≡ hand.old.counts) }
    ensures given { hand.new.token.me ≡ (seeing hand.old.token.me.0 Idle taken.region.region, []) }
    ensures made { hand.new.made ≡ changes_made taken.region.region.past }
{
    let Taken { region, before } = taken;
    let shown = shown_of(&region);
    hand.made = shown.changes;
    let token = &mut hand.token;
    board.exchange(token, 0, Some(region.into_region()));
    if shown.checksum != before.checksum {
        board.store::<Shows>(token, CHECKSUM, mirror(shown.checksum, shown.changes));
        count_and_give(board, token, shown.events);
    } else if shown.sequence != before.sequence {
        board.store::<Shows>(token, SEQUENCE, mirror(shown.sequence, shown.changes));
        count_and_give(board, token, shown.events);
    } else {
        count_and_give(board, token, shown.events);
    }
}

// Counts what was found in a mirrored word as a load, and gives the word that it mirrors. The number of changes beside it
// may be that of a journal before the one that this pass has seen.
fn look(hand: &mut Hand, found: u64) -> u32
    ensures same { (hand.new.token ≡ hand.old.token) × (hand.new.who ≡ hand.old.who) }
    ensures made { hand.new.made ≡ max hand.old.made (found / 4294967296) }
    ensures counts { hand.new.counts ≡ record hand.old.counts { loads = one_more hand.old.counts.loads } }
    ensures word { result ≡ found % 4294967296 }
{
    hand.made = hand.made.max((found / ABOVE) as u32);
    hand.counts = hand.counts.loaded();
    (found % ABOVE) as u32
}

// The checksum, and the number of changes at that moment.
pub fn peek_checksum(board: &Board, hand: &mut Hand) -> Peek
    requires table { (hand.old.token.table_id ≡ board.now.table_id) × HasShape board.now.table_id }
    requires pass { PassIs hand.old.token.me hand.old.who hand.old.made }
    ensures table { hand.new.token.table_id ≡ hand.old.token.table_id }
    ensures pass { PassIs hand.new.token.me hand.new.who hand.new.made }
    ensures looked { Looked hand.old.token.me hand.new.token.me }
    ensures counts { hand.new.counts ≡ record hand.old.counts { loads = one_more hand.old.counts.loads } }
    ensures checksum { result.checksum ≡ checksum_after hand.old.token.me.0.about.start hand.new.token.me.0.seen }
    ensures changes { result.changes ≡ hand.new.made }
{
    let found = board.load::<PeeksAtChecksum>(&mut hand.token, CHECKSUM);
    let checksum = look(hand, found);
    Peek {
        checksum,
        changes: hand.made,
    }
}

// The sequence.
pub fn peek_sequence(board: &Board, hand: &mut Hand) -> u32
    requires table { (hand.old.token.table_id ≡ board.now.table_id) × HasShape board.now.table_id }
    requires pass { PassIs hand.old.token.me hand.old.who hand.old.made }
    ensures table { hand.new.token.table_id ≡ hand.old.token.table_id }
    ensures pass { PassIs hand.new.token.me hand.new.who hand.new.made }
    ensures looked { Looked hand.old.token.me hand.new.token.me }
    ensures counts { hand.new.counts ≡ record hand.old.counts { loads = one_more hand.old.counts.loads } }
    ensures sequence { result ≡ sequence_after hand.old.token.me.0.about.start hand.new.token.me.0.seen }
{
    let found = board.load::<PeeksAtSequence>(&mut hand.token, SEQUENCE);
    look(hand, found)
}

// Hands a number out.
pub fn split<W: Number>(board: &Board, hand: &mut Hand, who: u32) -> Hand
    requires table { (hand.old.token.table_id ≡ board.now.table_id) × HasShape board.now.table_id }
    requires picked { W.number ≡ who }
    requires pass { PassIs hand.old.token.me hand.old.who hand.old.made }
    requires may { Among who hand.old.token.me.0.hands }
    ensures table { (hand.new.token.table_id ≡ hand.old.token.table_id) × (result.token.table_id ≡ hand.old.token.table_id) }
    ensures kept { hand.new.token.me ≡ (keeper hand.old.token.me.0 who, []) }
    ensures pass { PassIs hand.new.token.me hand.new.who hand.new.made }
    ensures counts { hand.new.counts ≡ hand.old.counts }
    ensures handed { result.token.me ≡ (handed hand.old.token.me.0 who, []) }
    ensures handed_pass { PassIs result.token.me result.who result.made }
    ensures uncounted { result.counts ≡ no_counts }
    ensures fresh { HandsAreFresh hand.old.token.me.0 }
{
    board.load::<Settles>(&mut hand.token, COUNT);
    let token = board.split_seat::<Hands<W>>(&mut hand.token);
    Hand {
        token,
        who,
        made: hand.made,
        counts: CallCounts::none(),
    }
}

// Takes in another pass.
pub fn join(board: &Board, hand: &mut Hand, other: Hand)
    requires table { (hand.old.token.table_id ≡ board.now.table_id) × (other.token.table_id ≡ board.now.table_id) × HasShape board.now.table_id }
    requires pass { PassIs hand.old.token.me hand.old.who hand.old.made }
    requires other { PassIs other.token.me other.who other.made }
    ensures table { hand.new.token.table_id ≡ hand.old.token.table_id }
    ensures view { hand.new.token.me ≡ (joined hand.old.token.me.0 other.token.me.0, []) }
    ensures pass { PassIs hand.new.token.me hand.new.who hand.new.made }
    ensures counts { hand.new.counts ≡ hand.old.counts }
    ensures follows { Follows (numbers_of_shorter hand.old.token.me.0 other.token.me.0) (longer hand.old.token.me.0.seen other.token.me.0.seen) (shorter hand.old.token.me.0.seen other.token.me.0.seen) }
{
    let Hand {
        token,
        who: _,
        made,
        counts: _,
    } = other;
    board.join_seat::<TakesIn>(&mut hand.token, token);
    board.load::<Settles>(&mut hand.token, COUNT);
    hand.made = hand.made.max(made);
}
