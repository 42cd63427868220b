// A region in memory, with its journal.
ghost use Rattle.std.specs.Prelude.{All, ◌≡◌, ◌≢◌, ◌+◌, ◌<◌, ◌≤◌, ◌↔◌, ◌++◌, [], ◌∷◌, ◌-◌, false, true, None, Some, length, reverse, vec_capacity, vec_len, Contains, IsTrue, IfOk, IfErr, OnOk, ◌==◌, if◌then◌else◌};
ghost use Rattle.region_words.specs.Region.{IsRegion, file_size};
ghost use Rattle.region_words.specs.Past.{region_after, changes_of, locks_after, has_died};
ghost use Rattle.region_words.specs.Lawful.{Lawful, IsWordOf};
ghost use Rattle.region_words.specs.Share.{word_in, most_events, torn_word, HasTornWord};
ghost use Rattle.region_words.specs.Local.{Local, IsLocal, TakesPlace, HasRoomToGrow, LacksPlaces, TriedIn, opening, account_of, with_account, with_event, event_of, called, kept_in, lock_after, after_load, after_refusal, after_fault, after_reserve, after_admission, with_fault};
ghost use Rattle.region_words.specs.Stores.{filled_up};
ghost use Rattle.region_words.specs.Opening.{Refuses, size_over, LiesIn, HasBytes, IsNoLock};
ghost use Rattle.region_words.specs.Past.{region_step, locks_step, change_of};
ghost use Rattle.lock_rules.specs.declared.limits.TheConstants.{MOST_OPENERS};
ghost use Rattle.lock_rules.specs.Locks.{MayTake};
ghost use Rattle.meta_record.specs.Words.{grown_to, torn};

use crate::account::Account;
use crate::copies::changes_in;
use crate::event::{Event, Mark, Side, TornWord, What};
use crate::failing::Failing;
use crate::pages::fill_up;
use crate::places::{AdmitStop, make_room};
use crate::shelf::{LARGEST_DATA, LARGEST_META};
use crate::stops::TornStore;
use change_log::Changes;
use expiring_map::Memory;
use lock_rules::{LockKind, LockTable, Tried};
use meta_record::{load_word, store_word};
use std::alloc::Global;
use std::marker::Model;
use std::snapshot::Snapshot;
use thiserror::Error;

/// Why no region was made of two files.
#[derive(Clone, Copy, Debug, PartialEq, Eq, Error)]
pub enum RegionStop {
    /// A file is over its limit; this is its length.
    #[error("a file of {0} bytes")]
    SizeRefused(u64),
    #[error("out of memory")]
    Memory,
}

/// A region in memory: the bytes of its two files, who holds the lock, and the journal of what its openers did.
#[derive(Drop)]
pub struct LocalRegion {
    first_data: Snapshot<Vec<u8>>,
    first_meta: Snapshot<Vec<u8>>,
    data: Vec<u8>,
    meta: Vec<u8>,
    locks: LockTable,
    journal: Vec<Event>,
    accounts: [Account; 65],
    kept: u32,
    changes: u32,
    failing: Failing,
}

impl Model for LocalRegion {
    ghost use Rattle.region_words.specs.Local.{Local};

    ghost Value = { Local };

    ghost use Rattle.std.specs.Prelude.{reverse, vec_capacity};
    ghost use Rattle.region_words.specs.Inside.{local_of, IsKept};

    ghost view = { local_of };

    ghost invariant = { IsKept };
}

impl LocalRegion {
    /// A region of these files, which are filled up with zeros to whole pages. Nothing has happened in it.
    pub fn new(alloc: Global, body: Vec<u8>, meta: Vec<u8>) -> Result<LocalRegion, RegionStop>
        ensures ok { IfOk result (λ r. r ≡ opening body.items meta.items) }
        ensures size { OnOk result (size_over body.items meta.items ≡ None) }
        ensures err { IfErr result (Refuses body.items meta.items) }
    {
        check_sizes(&body, &meta)?;
        let data = whole_pages(body)?;
        let meta = whole_pages(meta)?;
        are_bytes(&data);
        are_bytes(&meta);
        Ok(LocalRegion {
            first_data: Snapshot::of(&data),
            first_meta: Snapshot::of(&meta),
            data,
            meta,
            locks: LockTable::new(),
            journal: Vec::new(alloc),
            accounts: [Account::none(); 65],
            kept: 0,
            changes: 0,
            failing: Failing::new(Vec::new(alloc)),
        })
    }

    /// From now on the calls of these numbers, counted from 0, are to fail.
    pub fn fail_at(&mut self, calls: Vec<u64>)
        ensures { self.new ≡ record self.old { failing = record self.old.failing { listed = calls.items } } }
    {
        self.failing.list(calls);
    }

    /// The data bytes.
    pub fn data_bytes(&self) -> &[u8]
        ensures { result.now ≡ (region_after self.now.start self.now.past).data_bytes }
    {
        &self.data
    }

    /// The meta bytes.
    pub fn meta_bytes(&self) -> &[u8]
        ensures { result.now ≡ (region_after self.now.start self.now.past).meta_bytes }
    {
        &self.meta
    }

    /// The events, the oldest first.
    pub fn journal(&self) -> &[Event]
        ensures events { reverse result.now ≡ self.now.past }
        ensures lawful { Lawful self.now.start self.now.past }
        ensures region { IsRegion self.now.start }
    {
        &self.journal
    }

    /// The changes that are marked in the journal, the first of them first.
    pub fn changes(&self, alloc: Global) -> Result<Changes, Memory>
        ensures { IfOk result (λ changes. changes ≡ changes_of self.now.past) }
    {
        changes_in(alloc, &self.journal)
    }

    /// The data and the meta bytes; their memory is handed over.
    pub fn into_bytes(self) -> (Vec<u8>, Vec<u8>)
        ensures data { result.0.items ≡ (region_after self.start self.past).data_bytes }
        ensures meta { result.1.items ≡ (region_after self.start self.past).meta_bytes }
    {
        (self.data, self.meta)
    }

    /// Lets an opener make events, and keeps a place for its death.
    pub fn admit(&mut self, who: u32) -> Result<(), AdmitStop>
        requires least { 1 ≤ who }
        requires most { who ≤ MOST_OPENERS }
        requires new { (account_of self.old.accounts who).admitted ≡ false }
        ensures ok { OnOk result (self.new ≡ with_account self.old who (after_admission (account_of self.old.accounts who))) }
        ensures admitted { OnOk result ((account_of self.new.accounts who).admitted ≡ true) }
        ensures room { OnOk result (length self.new.past + kept_in self.new.accounts ≤ most_events) }
        ensures err { IfErr result (LacksPlaces self.old 1) }
        ensures same { IfErr result (λ _. self.new ≡ self.old) }
    {
        make_room(&mut self.journal, self.kept, 1)?;
        let account = self.accounts[who as usize];
        self.accounts[who as usize] = Account {
            admitted: true,
            kept: 1,
            ..account
        };
        self.kept += 1;
        Ok(())
    }

    /// What is true of every region in memory: its journal is lawful, and its accounts agree with the journal.
    pub fn good(&self)
        ensures { IsLocal self.now }
    {
        let _ = &self.kept;
    }

    // The number of changes.
    pub(crate) fn count_of_changes(&self) -> u32
        ensures { result ≡ length (changes_of self.now.past) }
    {
        self.changes
    }

    // The data file's length.
    pub(crate) fn size(&self) -> u32
        ensures value { result ≡ file_size (region_after self.now.start self.now.past) }
        ensures good { IsLocal self.now }
    {
        self.data.len() as u32
    }

    pub(crate) fn word(&self, side: Side, word: u32) -> u32
        requires { IsWordOf (region_after self.now.start self.now.past) side word }
        ensures { result ≡ word_in (region_after self.now.start self.now.past) side word }
    {
        match side {
            Side::Data => load_word(&self.data, word as usize),
            Side::Meta => load_word(&self.meta, word as usize),
        }
    }

    // Counts a call, and says whether it is to fail.
    pub(crate) fn next_fails(&mut self) -> bool
        ensures fails { IsTrue result ↔ Contains self.old.failing.listed self.old.failing.made }
        ensures after { self.new ≡ called self.old result }
        ensures good { IsLocal self.old }
    {
        self.failing.next_fails()
    }

    // Counts one more load.
    pub(crate) fn count_load(&mut self, who: u32)
        requires least { 1 ≤ who }
        requires most { who ≤ MOST_OPENERS }
        ensures { self.new ≡ with_account self.old who (after_load (account_of self.old.accounts who)) }
    {
        let account = self.accounts[who as usize];
        self.accounts[who as usize] = Account {
            loads: account.loads.saturating_add(1),
            ..account
        };
    }

    // Counts one more answer Busy.
    pub(crate) fn count_busy(&mut self, who: u32)
        requires least { 1 ≤ who }
        requires most { who ≤ MOST_OPENERS }
        ensures { self.new ≡ with_account self.old who (after_refusal (account_of self.old.accounts who)) }
    {
        let account = self.accounts[who as usize];
        self.accounts[who as usize] = Account {
            busy: account.busy.saturating_add(1),
            ..account
        };
    }

    // Counts one more fault.
    pub(crate) fn count_fault(&mut self, who: u32)
        requires least { 1 ≤ who }
        requires most { who ≤ MOST_OPENERS }
        ensures { self.new ≡ with_account self.old who (after_fault (account_of self.old.accounts who)) }
    {
        let account = self.accounts[who as usize];
        self.accounts[who as usize] = Account {
            faults: account.faults.saturating_add(1),
            ..account
        };
    }

    // Keeps more places, and room for a data file of this size.
    pub(crate) fn reserve(&mut self, who: u32, events: u32, size: u32) -> Result<(), AdmitStop>
        requires least { 1 ≤ who }
        requires most { who ≤ MOST_OPENERS }
        requires held { lock_after self.old.past who ≡ Some LockKind.Exclusive }
        ensures ok { OnOk result (self.new ≡ with_account self.old who (after_reserve events size (account_of self.old.accounts who))) }
        ensures room { OnOk result (length self.old.past + kept_in self.old.accounts + events ≤ most_events) }
        ensures err { IfErr result (LacksPlaces self.old events) }
        ensures same { IfErr result (λ _. self.new ≡ self.old) }
    {
        make_room(&mut self.journal, self.kept, events)?;
        make_bytes(&mut self.data, size as usize)?;
        let account = self.accounts[who as usize];
        self.accounts[who as usize] = Account {
            kept: account.kept + events,
            room: account.room.max(size),
            ..account
        };
        self.kept += events;
        Ok(())
    }

    // Takes the lock, unless another stands against it or the journal has no place.
    pub(crate) fn lock(&mut self, who: u32, kind: LockKind) -> Result<Tried, AdmitStop>
        requires least { 1 ≤ who }
        requires most { who ≤ MOST_OPENERS }
        requires free { lock_after self.old.past who ≡ None }
        requires alive { has_died self.old.past who ≡ false }
        requires living { 0 < (account_of self.old.accounts who).kept }
        ensures ok { IfOk result (λ tried. TriedIn self.old self.new who kind tried) }
        ensures err { IfErr result (LacksPlaces self.old 2) }
        ensures free { IfErr result (λ _. MayTake (locks_after self.old.past) who kind) }
        ensures same { IfErr result (λ _. self.new ≡ self.old) }
    {
        if let Tried::Busy(holder) = self.locks.try_take(who, kind) {
            return Ok(Tried::Busy(holder));
        }
        if let Err(stop) = make_room(&mut self.journal, self.kept, 2) {
            self.locks.give_up(who);
            return Err(stop);
        }
        note_event(&mut self.journal, who, What::Lock(kind));
        self.accounts[who as usize].kept += 1;
        self.kept += 1;
        Ok(Tried::Taken)
    }

    // A failed call: the death of its opener, and one fault more.
    pub(crate) fn fail(&mut self, who: u32)
        requires least { 1 ≤ who }
        requires most { who ≤ MOST_OPENERS }
        requires lawful { Lawful self.old.start (event_of who (What.Died None) ∷ self.old.past) }
        requires living { 0 < (account_of self.old.accounts who).kept }
        ensures { self.new ≡ with_fault (with_event self.old who (What.Died None)) who }
    {
        self.note(who, What::Died { torn: None });
        self.count_fault(who);
    }

    // The word that a death leaves where it tears this store.
    pub(crate) fn torn_word(&self, torn: Option<TornStore>) -> Option<TornWord>
        requires { HasTornWord (region_after self.now.start self.now.past) torn }
        ensures { result ≡ torn_word (region_after self.now.start self.now.past) torn }
    {
        match torn {
            None => None,
            Some(store) => {
                let old = load_word(&self.data, store.word as usize);
                Some(TornWord {
                    word: store.word,
                    value: torn_value(old, store.new, store.bits),
                })
            }
        }
    }

    // One event that takes a place that is kept.
    pub(crate) fn note(&mut self, who: u32, what: What)
        requires lawful { Lawful self.old.start (event_of who what ∷ self.old.past) }
        requires place { TakesPlace self.old who what }
        requires room { HasRoomToGrow self.old who what }
        ensures { self.new ≡ with_event self.old who what }
    {
        let before = self.accounts[who as usize];
        let after = before.after(&what);
        self.accounts[who as usize] = after;
        self.kept -= before.kept - after.kept;
        self.changes += commits(&what);
        relock(&mut self.locks, who, &what);
        apply(&mut self.data, &mut self.meta, &what);
        note_event(&mut self.journal, who, what);
    }
}

fn check_sizes(body: &[u8], meta: &[u8]) -> Result<(), RegionStop>
    ensures ok { OnOk result (size_over body.now meta.now ≡ None) }
    ensures err { IfErr result (λ stop. Refuses body.now meta.now stop × (stop ≢ RegionStop.Memory)) }
{
    if body.len() > LARGEST_DATA {
        return Err(RegionStop::SizeRefused(body.len() as u64));
    }
    if meta.len() > LARGEST_META {
        return Err(RegionStop::SizeRefused(meta.len() as u64));
    }
    Ok(())
}

fn whole_pages(bytes: Vec<u8>) -> Result<Vec<u8>, RegionStop>
    ensures ok { IfOk result (λ filled. filled.items ≡ filled_up bytes.items) }
    ensures err { IfErr result (λ stop. stop ≡ RegionStop.Memory) }
{
    fill_up(bytes).map_err(|_| RegionStop::Memory)
}

// For the proof of `new`: what a slice of bytes holds are bytes.
fn are_bytes(bytes: &[u8])
    ensures { All (λ b. b < 256) bytes.now }
{}

// Takes memory for so many bytes in all. No byte changes.
fn make_bytes(body: &mut Vec<u8>, size: usize) -> Result<(), AdmitStop>
    ensures items { body.new.items ≡ body.old.items }
    ensures capacity { vec_capacity body.old ≤ vec_capacity body.new }
    ensures room { OnOk result (size ≤ vec_capacity body.new) }
    ensures err { IfErr result (λ stop. stop ≡ AdmitStop.Memory) }
{
    let more = size.saturating_sub(body.len());
    body.reserve(more).map_err(|_| AdmitStop::Memory)
}

// Puts an event behind the others, for which there is room.
fn note_event(journal: &mut Vec<Event>, who: u32, what: What)
    requires { vec_len journal.old < vec_capacity journal.old }
    ensures items { journal.new.items ≡ journal.old.items ++ event_of who what ∷ [] }
    ensures capacity { vec_capacity journal.old ≤ vec_capacity journal.new }
{
    let _ = journal.push(Event { who, what });
}

// How many changes an event commits.
fn commits(what: &What) -> u32
    ensures value { result ≡ length (change_of what.now) }
    ensures few { result ≤ 1 }
{
    match what {
        What::Store {
            side: _,
            word: _,
            value: _,
            mark: Mark::Commit(_),
        } => 1,
        _ => 0,
    }
}

// What an event does to the locks, but for a lock that is taken.
fn relock(locks: &mut LockTable, who: u32, what: &What)
    requires least { 1 ≤ who }
    requires most { who ≤ MOST_OPENERS }
    requires other { IsNoLock what.now }
    ensures { locks.new ≡ locks_step locks.old who what.now }
{
    if matches!(what, What::Unlock | What::Died { torn: _ }) {
        locks.died(who);
    }
}

// What an event does to the bytes. Growing takes no memory where there is room.
fn apply(body: &mut Vec<u8>, meta: &mut Vec<u8>, what: &What)
    requires inside { LiesIn body.old.items meta.old.items what.now }
    requires room { HasBytes (vec_capacity body.old) what.now }
    ensures body { body.new.items ≡ (region_step (record { data_bytes = body.old.items; meta_bytes = meta.old.items }) what.now).data_bytes }
    ensures meta { meta.new.items ≡ (region_step (record { data_bytes = body.old.items; meta_bytes = meta.old.items }) what.now).meta_bytes }
    ensures capacity { vec_capacity body.old ≤ vec_capacity body.new }
{
    match what {
        What::Store {
            side: Side::Data,
            word,
            value,
            mark: _,
        } => store_word(body, *word as usize, *value),
        What::Store {
            side: Side::Meta,
            word,
            value,
            mark: _,
        } => store_word(meta, *word as usize, *value),
        What::Grow { size } => grow_to(body, *size as usize),
        What::Died { torn: Some(torn) } => store_word(body, torn.word as usize, torn.value),
        _ => {}
    }
}

// Zeros up to this size, for which there is room.
fn grow_to(body: &mut Vec<u8>, size: usize)
    requires more { vec_len body.old < size }
    requires room { size ≤ vec_capacity body.old }
    ensures items { body.new.items ≡ grown_to body.old.items size }
    ensures capacity { vec_capacity body.old ≤ vec_capacity body.new }
{
    let _ = body.resize(size, 0);
}

// What a death leaves of a store: the bytes on which the old and the new word agree, and else those of the bits.
fn torn_value(old: u32, new: u32, bits: u32) -> u32
    ensures { result ≡ torn old new bits }
{
    let old = old.to_le_bytes();
    let new = new.to_le_bytes();
    let bits = bits.to_le_bytes();
    u32::from_le_bytes([
        torn_byte(old[0], new[0], bits[0]),
        torn_byte(old[1], new[1], bits[1]),
        torn_byte(old[2], new[2], bits[2]),
        torn_byte(old[3], new[3], bits[3]),
    ])
}

fn torn_byte(old: u8, new: u8, bits: u8) -> u8
    ensures { result ≡ (if old == new then old else bits) }
{
    if old == new { old } else { bits }
}
