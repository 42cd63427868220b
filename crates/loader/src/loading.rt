// A full load of a region: one load of a shared region a step.
ghost use Rattle.std.specs.Prelude.{◌≡◌, ◌≢◌, ◌+◌, ◌/◌, ◌<◌, ◌≤◌, None, true, false, slice_index, IfOk, IfErr, OnOk, OnErr};
ghost use Rattle.kv_pairs.specs.Growth.{IsFileSize};
ghost use Rattle.region_words.specs.Region.{Region, IsAccepted, IsRegion, file_size};
ghost use Rattle.region_words.specs.Past.{region_after};
ghost use Rattle.region_words.specs.Told.{OnTold};
ghost use Rattle.region_words.specs.Share.{IsSound, Goes, Stops, loaded};
ghost use Rattle.loader.specs.FirstWords.{HasAccepted, first_answers, size_in};
ghost use Rattle.loader.specs.Loads.{HasLoaded, loads_of, next_answer, next_payload_word, is_done, Says, IsLoadOf, IsLoadedWhole, StopsLoading, Refuses, IsTenthIfRecord};
ghost use Rattle.loader.specs.PartialLoads.{IsSoundImage};

use crate::candidates::Candidate;
use crate::first_words::FirstWords;
use crate::loaded::Loaded;
use crate::outlook::{Outlook, look, look_first};
use crate::stops::LoadStop;
use expiring_map::{Bytes, Memory};
use region_words::{Share, ShareStop, Side};
use std::alloc::Global;
use std::marker::Model;

/// Whether a load goes on.
#[derive(Clone, Copy, Debug, PartialEq, Eq)]
pub enum Went {
    Going,
    Done,
}

/// A load under way. Each step makes one load of the region, and no word is loaded twice.
#[derive(Drop)]
pub struct Loading {
    alloc: Global,
    first: FirstWords,
    payload: Vec<u8>,
    outlook: Outlook,
}

impl Model for Loading {
    ghost use Rattle.loader.specs.Loads.{Load, IsLoad};
    ghost use Rattle.std.specs.Coded.{codes};
    ghost use Rattle.expiring_map.specs.contracts.map.ExpiringMap as map;

    ghost Value = { Load };

    ghost coded = { Prim.hlevel (codes, map.the_row.coded) };

    ghost use Rattle.loader.specs.Inside.{load_of, IsUnderWay};

    ghost view = { load_of };

    ghost invariant = { IsUnderWay };
}

impl Loading {
    /// A load of all that is needed: the record, the header, and the payload of the image that is shown.
    pub fn full(alloc: Global) -> Loading
        ensures loads { loads_of result ≡ 0 }
        ensures going { is_done result ≡ false }
        ensures told { (r : Region) → HasLoaded result r }
    {
        Loading {
            alloc,
            first: FirstWords::none(),
            payload: Vec::new(alloc),
            outlook: Outlook::Wants(Candidate::Record),
        }
    }

    /// The next load. After the last of a payload its checksum is looked at, and what is shown by it is decoded. After an
    /// error the load is as it was.
    pub fn step<S: Share>(&mut self, share: &mut S) -> Result<Went, LoadStop>
        requires alive { (S.state share.old).ended ≡ false }
        requires lock { (S.state share.old).holds ≢ None }
        requires going { is_done self.old ≡ false }
        requires so_far { OnTold (S.state share.old).told (λ h. HasLoaded self.old (region_after h.start h.past)) }
        ensures goes { OnOk result (Goes (loaded (S.state share.old)) (S.state share.old) (S.state share.new)) }
        ensures loads { OnOk result (loads_of self.new ≡ loads_of self.old + 1) }
        ensures bound { OnOk result (loads_of self.new ≤ 10 + size_in self.new.first / 4) }
        ensures file { OnOk result (IsFileSize (size_in self.new.first)) }
        ensures size { OnOk result (0 < loads_of self.old → size_in self.new.first ≡ size_in self.old.first) }
        ensures answered { OnOk result (OnTold (S.state share.new).told (λ h. size_in self.new.first ≡ file_size (region_after h.start h.past))) }
        ensures done { IfOk result (λ went. Says went self.new) }
        ensures accepted { OnOk result (10 ≤ loads_of self.new → HasAccepted self.new.first) }
        ensures accepts { OnOk result (10 ≤ loads_of self.new → OnTold (S.state share.new).told (λ h. IsAccepted (region_after h.start h.past))) }
        ensures many { OnOk result (is_done self.new ≡ true → 10 ≤ loads_of self.new) }
        ensures told { OnOk result (OnTold (S.state share.new).told (λ h. HasLoaded self.new (region_after h.start h.past))) }
        ensures err { IfErr result (λ stop. StopsLoading stop (S.state share.old) (S.state share.new)) }
        ensures tenth { IfErr result (λ stop. IsTenthIfRecord stop self.old) }
        ensures same { OnErr result (self.new ≡ self.old) }
    {
        let value = self.ask(share)?;
        self.take_in(value)?;
        Ok(self.went())
    }

    // One load: of the first words, or of the next payload word.
    fn ask<S: Share>(&self, share: &mut S) -> Result<u32, ShareStop>
        requires alive { (S.state share.old).ended ≡ false }
        requires going { is_done self.now ≡ false }
        requires so_far { OnTold (S.state share.old).told (λ h. HasLoaded self.now (region_after h.start h.past)) }
        ensures sound { IsSound (S.state share.old) }
        ensures goes { OnOk result (Goes (loaded (S.state share.old)) (S.state share.old) (S.state share.new)) }
        ensures value { IfOk result (λ value. OnTold (S.state share.new).told (λ h. value ≡ next_answer self.now (region_after h.start h.past))) }
        ensures size { IfOk result (λ value. self.now.first.made ≡ 0 → IsFileSize value) }
        ensures err { IfErr result (λ stop. Stops stop (S.state share.old) (S.state share.new)) }
    {
        // with its opener's number the share says that it is sound, so that the first words lie in its files
        let _ = share.who();
        if self.first.are_complete() {
            let word = 1 + self.payload.len() as u32 / 4;
            share.load(Side::Data, word)
        } else {
            self.first.ask(share)
        }
    }

    fn take_in(&mut self, value: u32) -> Result<(), LoadStop>
        requires going { is_done self.old ≡ false }
        requires size { self.old.first.made ≡ 0 → IsFileSize value }
        ensures loads { OnOk result (loads_of self.new ≡ loads_of self.old + 1) }
        ensures size { OnOk result (0 < loads_of self.old → size_in self.new.first ≡ size_in self.old.first) }
        ensures told { OnOk result ((r : Region) → IsRegion r → HasLoaded self.old r → value ≡ next_answer self.old r → HasLoaded self.new r) }
        ensures err { IfErr result (λ stop. Refuses stop self.old value) }
        ensures tenth { IfErr result (λ stop. IsTenthIfRecord stop self.old) }
        ensures same { OnErr result (self.new ≡ self.old) }
    {
        if !self.first.are_complete() {
            return self.take_first_word(value);
        }
        self.take_payload_word(value)?;
        Ok(())
    }

    fn take_first_word(&mut self, value: u32) -> Result<(), LoadStop>
        requires first { self.old.first.made < 10 }
        requires size { self.old.first.made ≡ 0 → IsFileSize value }
        ensures loads { OnOk result (loads_of self.new ≡ loads_of self.old + 1) }
        ensures size { OnOk result (0 < loads_of self.old → size_in self.new.first ≡ size_in self.old.first) }
        ensures told { OnOk result ((r : Region) → HasLoaded self.old r → value ≡ slice_index (first_answers r) self.old.first.made → HasLoaded self.new r) }
        ensures err { IfErr result (λ stop. Refuses stop self.old value) }
        ensures tenth { IfErr result (λ stop. IsTenthIfRecord stop self.old) }
        ensures same { OnErr result (self.new ≡ self.old) }
    {
        let first = self.first.with(value);
        self.outlook = look_first(self.alloc, &first)?;
        self.first = first;
        Ok(())
    }

    // Where there is no memory to look at the payload, the word is taken off again.
    fn take_payload_word(&mut self, value: u32) -> Result<(), Memory>
        requires complete { self.old.first.made ≡ 10 }
        requires going { is_done self.old ≡ false }
        ensures loads { OnOk result (loads_of self.new ≡ loads_of self.old + 1) }
        ensures size { OnOk result (0 < loads_of self.old → size_in self.new.first ≡ size_in self.old.first) }
        ensures told { OnOk result ((r : Region) → IsRegion r → HasLoaded self.old r → value ≡ next_payload_word self.old r → HasLoaded self.new r) }
        ensures same { OnErr result (self.new ≡ self.old) }
    {
        let Outlook::Wants(candidate) = self.outlook else {
            unreachable!()
        };
        let loaded = self.payload.len();
        self.payload.extend_from_slice(&value.to_le_bytes())?;
        match look(self.alloc, &self.first, &self.payload, candidate) {
            Ok(outlook) => {
                self.outlook = outlook;
                Ok(())
            }
            Err(stop) => {
                self.payload.truncate(loaded);
                Err(stop)
            }
        }
    }

    // Whether the load is done.
    fn went(&self) -> Went
        ensures begun { 0 < loads_of self.now → 0 < self.now.first.made }
        ensures file { 0 < loads_of self.now → IsFileSize (size_in self.now.first) }
        ensures done { Says result self.now }
        ensures bound { loads_of self.now ≤ 10 + size_in self.now.first / 4 }
        ensures accepted { 10 ≤ loads_of self.now → HasAccepted self.now.first }
        ensures made { 10 ≤ loads_of self.now → self.now.first.made ≡ 10 }
        ensures many { is_done self.now ≡ true → 10 ≤ loads_of self.now }
    {
        match self.outlook {
            Outlook::Wants(_) => Went::Going,
            Outlook::Found(_) => Went::Done,
        }
    }

    /// What was loaded.
    pub fn finish(self) -> Loaded
        requires { is_done self ≡ true }
        ensures whole { IsLoadedWhole result }
        ensures sound { IsSoundImage result.image }
        ensures told { (r : Region) → HasLoaded self r → IsLoadOf result r }
    {
        let Loading {
            first,
            payload,
            outlook,
            ..
        } = self;
        let Outlook::Found(found) = outlook else {
            unreachable!()
        };
        Loaded {
            shown: found.shown,
            rec: first.record(),
            header: first.header(),
            image: found.image,
            payload: Bytes::of_vec(payload),
        }
    }
}
