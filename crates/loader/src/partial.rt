// A load that goes on from a kept image: it loads what was appended behind it, and nothing that is known.
ghost use Rattle.std.specs.Prelude.{◌≡◌, ◌≢◌, ◌+◌, ◌%◌, ◌/◌, ◌^◌, ◌<◌, ◌≤◌, [], All, List, None, Ok, false, length, IfOk, IfErr, IfSome, OnOk};
ghost use Rattle.crc_words.specs.Crc.{crc_from};
ghost use Rattle.kv_pairs.specs.Found.{HaveKeys};
ghost use Rattle.kv_pairs.specs.Growth.{IsFileSize, largest};
ghost use Rattle.kv_pairs.specs.Mapped.{first_without_room, with_items};
ghost use Rattle.kv_pairs.specs.Reading.{units_at};
ghost use Rattle.kv_pairs.specs.declared.item.Item.{Item};
ghost use Rattle.region_words.specs.Region.{Region, IsRegion};
ghost use Rattle.region_words.specs.Past.{region_after};
ghost use Rattle.region_words.specs.Told.{OnTold};
ghost use Rattle.region_words.specs.Share.{IsSound, Goes, Stops, loaded};
ghost use Rattle.loader.specs.PartialLoads.{Extends, GivesShown, GivesSound, GoesOnIn, HasLoadedPart, IsGoing, IsSamePart, IsSoundImage, StopsGoingOn};
ghost use Rattle.loader.specs.PartialLoads.{added_size, bytes_added, bytes_from, checksum_in, going_on_from, image_in, loads_made, need_of, next_part, next_part_word, standing_with};

use crate::first_words::tail_of;
use crate::loaded::Image;
use crate::record_words::RecordWords;
use crate::stops::LoadStop;
use crc_words::crc32_from;
use expiring_map::{ExpiringMap, Memory};
use kv_pairs::{Items, ItemsStop, MapStop, decode_from, extend};
use region_words::{Share, ShareStop, Side, Standing};
use std::alloc::Global;
use std::marker::Model;

/// What a partial load came to by a step.
#[derive(Clone, Copy, Debug, PartialEq, Eq)]
pub enum Ran {
    Going,
    /// What was appended goes on from the kept image.
    Holds,
    /// Another image stands there: the region is to be loaded in full.
    Fails,
}

/// What a partial load lacks, by what it has loaded.
#[derive(Clone, Copy, Debug, PartialEq, Eq)]
pub enum Need {
    /// A word of the record.
    Word,
    /// The size of the data file, which may have grown.
    FileSize,
    /// A word of the payload.
    Payload,
    /// All is loaded.
    Nothing,
    /// The kept image doesn't stand any more.
    FullLoad,
}

/// A partial load under way. Each step makes one load of the region.
#[derive(Drop)]
pub struct PartialLoading {
    alloc: Global,
    kept: Standing,
    map: ExpiringMap,
    words: RecordWords,
    // The size of the data file: the kept one, or the one that was asked for.
    file_size: u32,
    asked: bool,
    // The payload bytes from the word on in which the kept ones end.
    added: Vec<u8>,
}

impl Model for PartialLoading {
    ghost use Rattle.loader.specs.PartialLoads.{PartialLoad};
    ghost use Rattle.std.specs.Coded.{codes};
    ghost use Rattle.expiring_map.specs.contracts.map.ExpiringMap as expiring;

    ghost Value = { PartialLoad };

    ghost coded = { Prim.hlevel (codes, expiring.the_row.coded) };

    ghost use Rattle.loader.specs.PartialInside.{partial_load_of, IsPartUnderWay};

    ghost view = { partial_load_of };

    ghost invariant = { IsPartUnderWay };
}

impl PartialLoading {
    /// A load that goes on from this image.
    pub fn new(alloc: Global, image: Image) -> PartialLoading
        requires { IsSoundImage image }
        ensures new { result ≡ going_on_from image }
        ensures going { IsGoing result }
        ensures told { (r : Region) → image.standing.file_size ≤ length r.data_bytes → HasLoadedPart result r }
    {
        let file_size = image.standing.file_size;
        PartialLoading {
            alloc,
            kept: image.standing,
            map: image.map,
            words: RecordWords::none(),
            file_size,
            asked: false,
            added: Vec::new(alloc),
        }
    }

    /// The next load. After the last the checksum is continued over the added bytes, and their items are put into the map.
    /// Where a call on the share fails, the load is as it was; after want of memory it is to be given up.
    pub fn step<S: Share>(&mut self, share: &mut S) -> Result<Ran, LoadStop>
        requires alive { (S.state share.old).ended ≡ false }
        requires lock { (S.state share.old).holds ≢ None }
        requires going { IsGoing self.old }
        requires so_far { OnTold (S.state share.old).told (λ h. HasLoadedPart self.old (region_after h.start h.past)) }
        ensures goes { OnOk result (Goes (loaded (S.state share.old)) (S.state share.old) (S.state share.new)) }
        ensures loads { OnOk result (loads_made self.new ≡ loads_made self.old + 1) }
        ensures bound { OnOk result (loads_made self.new ≤ 4 + (added_size self.new + 3) / 4) }
        ensures most { OnOk result (loads_made self.new ≤ 4 + largest / 4) }
        ensures within { OnOk result (loads_made self.new ≤ 4 + self.new.file_size / 4) }
        ensures kept { OnOk result (self.new.kept ≡ self.old.kept) }
        ensures going { IfOk result (λ ran. ran ≡ Ran.Going → IsGoing self.new × (self.new.map ≡ self.old.map)) }
        ensures holds { IfOk result (λ ran. ran ≡ Ran.Holds → Extends self.old.map self.new) }
        ensures exact { IfOk result (λ ran. ran ≡ Ran.Holds → OnTold (S.state share.new).told (λ h. GoesOnIn self.old.kept (region_after h.start h.past))) }
        ensures fails { IfOk result (λ ran. ran ≡ Ran.Fails → OnTold (S.state share.new).told (λ h. GoesOnIn self.old.kept (region_after h.start h.past) → ⊥)) }
        ensures told { OnOk result (OnTold (S.state share.new).told (λ h. HasLoadedPart self.new (region_after h.start h.past))) }
        ensures err { IfErr result (λ stop. StopsGoingOn stop (S.state share.old) (S.state share.new)) }
        ensures same { IfErr result (λ stop. stop ≢ LoadStop.Memory → self.new ≡ self.old) }
    {
        let value = self.ask(share)?;
        self.take_in(value)?;
        Ok(self.ran()?)
    }

    // One load of what is lacking.
    fn ask<S: Share>(&self, share: &mut S) -> Result<u32, ShareStop>
        requires alive { (S.state share.old).ended ≡ false }
        requires going { IsGoing self.now }
        requires so_far { OnTold (S.state share.old).told (λ h. HasLoadedPart self.now (region_after h.start h.past)) }
        ensures sound { IsSound (S.state share.old) }
        ensures goes { OnOk result (Goes (loaded (S.state share.old)) (S.state share.old) (S.state share.new)) }
        ensures value { IfOk result (λ value. OnTold (S.state share.new).told (λ h. value ≡ next_part self.now (region_after h.start h.past))) }
        ensures pages { IfOk result (λ value. need_of self.now ≡ Need.FileSize → IsFileSize value) }
        ensures err { IfErr result (λ stop. Stops stop (S.state share.old) (S.state share.new)) }
    {
        // with its opener's number the share says that it is sound, so that the words of the record lie in its files
        let _ = share.who();
        match self.need() {
            Need::Word => self.words.ask(share),
            Need::FileSize => share.size(),
            _ => share.load(Side::Data, self.next_word()),
        }
    }

    // The payload word that is loaded next.
    fn next_word(&self) -> u32
        requires { need_of self.now ≡ Need.Payload }
        ensures { result ≡ next_part_word self.now }
    {
        1 + self.kept.size / 4 + self.added.len() as u32 / 4
    }

    fn take_in(&mut self, value: u32) -> Result<(), Memory>
        requires going { IsGoing self.old }
        requires pages { need_of self.old ≡ Need.FileSize → IsFileSize value }
        ensures loads { OnOk result (loads_made self.new ≡ loads_made self.old + 1) }
        ensures bound { OnOk result (loads_made self.new ≤ 4 + (added_size self.new + 3) / 4) }
        ensures most { OnOk result (loads_made self.new ≤ 4 + largest / 4) }
        ensures within { OnOk result (loads_made self.new ≤ 4 + self.new.file_size / 4) }
        ensures kept { OnOk result ((self.new.kept ≡ self.old.kept) × (self.new.map ≡ self.old.map)) }
        ensures told { OnOk result ((r : Region) → IsRegion r → HasLoadedPart self.old r → value ≡ next_part self.old r → HasLoadedPart self.new r) }
    {
        match self.need() {
            Need::Word => self.words = self.words.with(value),
            Need::FileSize => {
                self.file_size = value;
                self.asked = true;
            }
            _ => self.take_payload_word(value)?,
        }
        Ok(())
    }

    fn take_payload_word(&mut self, value: u32) -> Result<(), Memory>
        requires payload { need_of self.old ≡ Need.Payload }
        ensures loads { OnOk result (loads_made self.new ≡ loads_made self.old + 1) }
        ensures bound { OnOk result (loads_made self.new ≤ 4 + (added_size self.new + 3) / 4) }
        ensures most { OnOk result (loads_made self.new ≤ 4 + largest / 4) }
        ensures within { OnOk result (loads_made self.new ≤ 4 + self.new.file_size / 4) }
        ensures kept { OnOk result ((self.new.kept ≡ self.old.kept) × (self.new.map ≡ self.old.map)) }
        ensures told { OnOk result ((r : Region) → IsRegion r → HasLoadedPart self.old r → value ≡ next_part self.old r → HasLoadedPart self.new r) }
    {
        self.added.extend_from_slice(&value.to_le_bytes())?;
        Ok(())
    }

    // What the load has come to.
    fn ran(&mut self) -> Result<Ran, Memory>
        ensures parts { OnOk result (IsSamePart self.old self.new) }
        ensures going { IfOk result (λ ran. ran ≡ Ran.Going → IsGoing self.new × (self.new.map ≡ self.old.map)) }
        ensures holds { IfOk result (λ ran. ran ≡ Ran.Holds → Extends self.old.map self.new) }
        ensures fails { IfOk result (λ ran. ran ≡ Ran.Fails → (r : Region) → IsRegion r → HasLoadedPart self.old r → GoesOnIn self.old.kept r → ⊥) }
    {
        match self.need() {
            Need::Nothing => self.look(),
            Need::FullLoad => Ok(Ran::Fails),
            _ => Ok(Ran::Going),
        }
    }

    // Whether the added bytes go on from the kept ones, once all are loaded.
    fn look(&mut self) -> Result<Ran, Memory>
        requires complete { need_of self.old ≡ Need.Nothing }
        ensures parts { OnOk result (IsSamePart self.old self.new) }
        ensures ended { result ≢ Ok Ran.Going }
        ensures holds { IfOk result (λ ran. ran ≡ Ran.Holds → Extends self.old.map self.new) }
        ensures fails { IfOk result (λ ran. ran ≡ Ran.Fails → (r : Region) → IsRegion r → HasLoadedPart self.old r → GoesOnIn self.old.kept r → ⊥) }
    {
        let Some(items) = self.items()? else {
            return Ok(Ran::Fails);
        };
        self.put_in(items)
    }

    // These items are put into the map, where they have one.
    fn put_in(&mut self, items: Items) -> Result<Ran, Memory>
        requires { HaveKeys items }
        ensures parts { OnOk result (IsSamePart self.old self.new) }
        ensures ended { result ≢ Ok Ran.Going }
        ensures holds { result ≡ Ok Ran.Holds → (first_without_room self.old.kept.flag items ≡ None) × (self.new.map ≡ with_items self.old.kept.flag self.old.map items) }
        ensures fails { result ≡ Ok Ran.Fails → first_without_room self.old.kept.flag items ≢ None }
    {
        match extend(self.kept.flag, &mut self.map, items) {
            Ok(()) => Ok(Ran::Holds),
            Err(MapStop::NoMap { .. }) => Ok(Ran::Fails),
            Err(MapStop::Memory) => Err(Memory),
        }
    }

    // The items behind the kept bytes, where the kept checksum goes on over them to the record's.
    fn items(&self) -> Result<Option<Items>, Memory>
        requires complete { need_of self.now ≡ Need.Nothing }
        ensures some { IfOk result (λ found. IfSome found (λ items. (crc_from self.now.kept.checksum (bytes_added self.now) ≡ checksum_in self.now) × (units_at (bytes_added self.now) ≡ (items, [])) × HaveKeys items)) }
        ensures none { result ≡ Ok None → (items : List Item) → crc_from self.now.kept.checksum (bytes_added self.now) ≡ checksum_in self.now → units_at (bytes_added self.now) ≡ (items, []) → ⊥ }
    {
        let payload = self.payload();
        let kept = (self.kept.size % 4) as usize;
        if crc32_from(self.kept.checksum, &payload[kept..]) != self.words.checksum() {
            return Ok(None);
        }
        match decode_from(self.alloc, payload, kept) {
            Ok(items) => Ok(Some(items)),
            Err(ItemsStop::NotItems { .. }) => Ok(None),
            Err(ItemsStop::Memory) => Err(Memory),
        }
    }

    // The payload bytes from the first that is loaded on.
    fn payload(&self) -> &[u8]
        requires complete { need_of self.now ≡ Need.Nothing }
        ensures bytes { result.now ≡ bytes_from self.now }
        ensures size { length result.now ≡ added_size self.now }
        ensures kept { self.now.kept.size % 4 ≤ length result.now }
    {
        &self.added[..self.added_size()]
    }

    /// The image to which the kept one goes on.
    pub fn finish(self) -> Image
        requires complete { need_of self ≡ Need.Nothing }
        ensures image { result ≡ image_in self }
        ensures sound { GivesSound self result }
        ensures shows { GivesShown self result }
    {
        Image {
            standing: self.standing(self.payload()),
            map: self.map,
        }
    }

    // What is known of the image to which the kept one goes on, by its payload from the first byte that is loaded on.
    fn standing(&self, payload: &[u8]) -> Standing
        requires { length payload.now < 2 ^ 32 }
        ensures value { result ≡ standing_with self.now payload.now }
        ensures bytes { All (λ b. b < 256) payload.now }
    {
        Standing {
            size: self.words.size(),
            checksum: self.words.checksum(),
            tail: tail_of(payload),
            file_size: self.file_size,
            ..self.kept
        }
    }
}

// What is lacking.
impl PartialLoading {
    ghost use Rattle.std.specs.Prelude.{◌≡◌, if◌then◌else◌};
    ghost use Rattle.loader.specs.PartialLoads.{added_size, is_another, need_of};

    fn need(&self) -> Need
        ensures { result ≡ need_of self.now }
    {
        let size = self.words.size();
        if self.words.made < 3 {
            return Need::Word;
        }
        if self.is_another() {
            return Need::FullLoad;
        }
        if u64::from(self.file_size) < 4 + u64::from(size) {
            return self.need_of_room();
        }
        if self.added.len() < self.added_size() {
            Need::Payload
        } else {
            Need::Nothing
        }
    }

    // Whether by its record another image stands there. Nothing is ever appended to an empty image.
    fn is_another(&self) -> bool
        ensures { result ≡ is_another self.now }
    {
        let (kept, size) = (self.kept.size, self.words.size());
        self.words.sequence() != self.kept.sequence || size < kept || kept == 0 && size > 0
    }

    // The record's size doesn't fit the data file as far as its size is known.
    fn need_of_room(&self) -> Need
        ensures { result ≡ if self.now.asked then Need.FullLoad else Need.FileSize }
    {
        if self.asked {
            Need::FullLoad
        } else {
            Need::FileSize
        }
    }

    // How many payload bytes there are from the first that is loaded on.
    fn added_size(&self) -> usize
        ensures { result ≡ added_size self.now }
    {
        let first_byte = self.kept.size / 4 * 4;
        self.words.size().saturating_sub(first_byte) as usize
    }
}
