// A pass, and the seat of one at its desk.
ghost use Rattle.std.specs.Prelude.{◌≡◌, [], true};
ghost use Rattle.region_words.specs.Past.{NoneOf};
ghost use Rattle.step_desk.specs.declared.view.Stage.TheVariants.{Idle};
ghost use Rattle.step_desk.specs.Numbers.{Among, GoesOn};
ghost use Rattle.step_desk.specs.Steps.{keeper, handed, joined};
ghost use Rattle.step_desk.specs.Passes.{PassIs, PassState, no_counts};

use crate::counts::CallCounts;
use crate::plays::Token;
use crate::steps;
use crate::steps::Hand;
use crate::table::Desk;
use lock_rules::{LockKind, Tried};
use region_words::{Mark, Peek, Share, ShareStop, Side, TornStore, Unstored};
use std::marker::{Brand, Model};

/// What one opener has seen of a desk. It has no lifetime, so a thread can own it.
#[derive(Drop)]
pub struct Pass {
    hand: Hand,
}

impl Model for Pass {
    ghost use Rattle.step_desk.specs.Passes.{PassIs, PassState};

    ghost Value = { PassState };

    ghost view = { λ p. record { table = p.hand.token.table_id; view = p.hand.token.me.0; counts = p.hand.counts } };

    ghost invariant = { λ p. PassIs p.hand.token.me p.hand.who p.hand.made };
}

/// A pass at its desk: a share of the desk's region. Each call but the peeks tries once to take the desk's turn.
#[derive(Drop)]
pub struct Seat<'a> {
    desk: &'a Desk,
    hand: Hand,
}

impl<'a> Model for Seat<'a> {
    ghost use Rattle.std.specs.Prelude.{◌≡◌};
    ghost use Rattle.step_desk.specs.Passes.{PassIs, PassState};

    ghost Value = { PassState };

    ghost view = { λ s. record { table = s.hand.token.table_id; view = s.hand.token.me.0; counts = s.hand.counts } };

    ghost invariant = { λ s. (s.hand.token.table_id ≡ s.desk.now.table) × PassIs s.hand.token.me s.hand.who s.hand.made };
}

impl Pass {
    pub(crate) fn first(token: Token) -> Pass
        requires { PassIs token.me 1 0 }
        ensures { result ≡ record { table = token.table_id; view = token.me.0; counts = no_counts } }
    {
        Pass {
            hand: Hand {
                token,
                who: 1,
                made: 0,
                counts: CallCounts::none(),
            },
        }
    }

    pub(crate) fn into_token(self) -> Token
        ensures table { result.table_id ≡ self.table }
        ensures view { result.me ≡ (self.view, []) }
        ensures ready { (self.view.live ≡ true) × (self.view.stage ≡ Idle) }
    {
        let Hand {
            token,
            who: _,
            made: _,
            counts: _,
        } = self.hand;
        token
    }
}

impl<'a> Seat<'a> {
    pub(crate) fn of(desk: &'a Desk, pass: Pass) -> Seat<'a>
        requires { pass.table ≡ desk.now.table }
        ensures { result ≡ pass }
    {
        Seat {
            desk,
            hand: pass.hand,
        }
    }

    /// The pass again.
    pub fn into_pass(self) -> Pass
        ensures { result ≡ self.entry }
    {
        Pass { hand: self.hand }
    }

    /// Hands out a number: its pass, which has seen as much and may hand out none. No event of that number was seen.
    pub fn split(&mut self, who: u32) -> Pass
        requires { Among who self.old.view.hands }
        ensures kept { self.new ≡ record self.old { view = keeper self.old.view who } }
        ensures pass { result ≡ record { table = self.old.table; view = handed self.old.view who; counts = no_counts } }
        ensures fresh { NoneOf who result.view.seen }
    {
        let hand = steps::split::<Brand>(self.desk.board(), &mut self.hand, who);
        Pass { hand }
    }

    /// Takes in another pass, and its numbers. What is then seen goes on from what either had seen, with no event of the
    /// numbers for which it answered.
    pub fn join(&mut self, other: Pass)
        requires { other.table ≡ self.old.table }
        ensures view { self.new ≡ record self.old { view = joined self.old.view other.view } }
        ensures ours { GoesOn self.old.view self.new.view.seen }
        ensures theirs { GoesOn other.view self.new.view.seen }
    {
        steps::join(self.desk.board(), &mut self.hand, other.hand);
    }
}

impl<'a> Share for Seat<'a> {
    ghost use Rattle.step_desk.specs.Passes.{state_of};

    ghost state = { state_of };

    fn who(&self) -> u32 {
        self.hand.who
    }

    fn changes(&self) -> u32 {
        self.hand.made
    }

    fn size(&mut self) -> Result<u32, ShareStop> {
        let board = self.desk.board();
        let mut taken = steps::take(board, &mut self.hand)?;
        let outcome = taken.region.size();
        steps::put(board, &mut self.hand, taken);
        self.hand.counts = self.hand.counts.after_load(&outcome);
        outcome
    }

    fn load(&mut self, side: Side, word: u32) -> Result<u32, ShareStop> {
        let board = self.desk.board();
        let mut taken = steps::take(board, &mut self.hand)?;
        let outcome = taken.region.load(side, word);
        steps::put(board, &mut self.hand, taken);
        self.hand.counts = self.hand.counts.after_load(&outcome);
        outcome
    }

    fn peek_checksum(&mut self) -> Result<Peek, ShareStop> {
        Ok(steps::peek_checksum(self.desk.board(), &mut self.hand))
    }

    fn peek_sequence(&mut self) -> Result<u32, ShareStop> {
        Ok(steps::peek_sequence(self.desk.board(), &mut self.hand))
    }

    fn reserve(&mut self, events: u32, size: u32) -> Result<(), ShareStop> {
        let board = self.desk.board();
        let mut taken = steps::take(board, &mut self.hand)?;
        let outcome = taken.region.reserve(events, size);
        steps::put(board, &mut self.hand, taken);
        self.hand.counts = self.hand.counts.after_call(&outcome);
        outcome
    }

    fn store(&mut self, side: Side, word: u32, value: u32, mark: Mark) -> Result<(), Unstored> {
        let board = self.desk.board();
        let mut taken = match steps::take(board, &mut self.hand) {
            Ok(taken) => taken,
            Err(stop) => return Err(Unstored { stop, mark }),
        };
        let outcome = taken.region.store(side, word, value, mark);
        steps::put(board, &mut self.hand, taken);
        self.hand.counts = self.hand.counts.after_store(&outcome);
        outcome
    }

    fn grow(&mut self, size: u32) -> Result<(), ShareStop> {
        let board = self.desk.board();
        let mut taken = steps::take(board, &mut self.hand)?;
        let outcome = taken.region.grow(size);
        steps::put(board, &mut self.hand, taken);
        self.hand.counts = self.hand.counts.after_call(&outcome);
        outcome
    }

    fn try_lock(&mut self, kind: LockKind) -> Result<Tried, ShareStop> {
        let board = self.desk.board();
        let mut taken = steps::take(board, &mut self.hand)?;
        let outcome = taken.region.try_lock(kind);
        steps::put(board, &mut self.hand, taken);
        self.hand.counts = self.hand.counts.after_try(&outcome);
        outcome
    }

    fn unlock(&mut self) -> Result<(), ShareStop> {
        let board = self.desk.board();
        let mut taken = steps::take(board, &mut self.hand)?;
        let outcome = taken.region.unlock();
        steps::put(board, &mut self.hand, taken);
        self.hand.counts = self.hand.counts.after_call(&outcome);
        outcome
    }

    fn die(&mut self, torn: Option<TornStore>) -> Result<(), ShareStop> {
        let board = self.desk.board();
        let mut taken = steps::take(board, &mut self.hand)?;
        let outcome = taken.region.die(torn);
        steps::put(board, &mut self.hand, taken);
        self.hand.counts = self.hand.counts.after_call(&outcome);
        outcome
    }
}
