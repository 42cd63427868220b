// The payloads at which a checksum was looked at.
ghost use Rattle.std.specs.Prelude.{◌≡◌, ◌-◌, ◌<◌, ◌≤◌, ◌^◌, [], ◌∷◌, IfOk};
ghost use Rattle.region_words.specs.Region.{Region};
ghost use Rattle.region_words.specs.Apart.{recorded_payloads};
ghost use Rattle.death_model.specs.FilesInside.{region_in, sizes_of, payload_at, IsReadable, IsStepTo};
ghost use Rattle.death_model.specs.SeenInside.{Keeps, Tells, lies_in, meant, plain_checksum, summed, touches};

use crate::files::{Files, Sizes};
use crc_words::crc32;
use expiring_map::Memory;
use region_words::{Mark, Side, What};
use std::alloc::Global;
use std::collections::BTreeMap;

// One payload for each checksum.
#[derive(Drop)]
pub(crate) struct Seen {
    payloads: BTreeMap<u32, Vec<u8>>,
    alloc: Global,
}

impl Seen {
    pub(crate) fn new(alloc: Global) -> Seen
        ensures { Keeps result [] }
    {
        Seen {
            payloads: BTreeMap::new(alloc),
            alloc,
        }
    }

    // Looks at the payloads of the three sizes. False where one isn't apart from what was seen.
    pub(crate) fn look_at_all(&mut self, files: &Files) -> Result<bool, Memory>
        requires { IsReadable (region_in files.now) }
        ensures { IfOk result (Tells [] self.old self.new (recorded_payloads (region_in files.now))) }
    {
        let sizes = files.sizes();
        if !self.look_at(files, sizes.header as usize)? {
            return Ok(false);
        }
        if !self.look_at(files, sizes.size as usize)? {
            return Ok(false);
        }
        self.look_at(files, sizes.last_size as usize)
    }

    // The same after an event, but for payloads that it leaves as they were. `before` are the sizes that stood before it.
    pub(crate) fn look_again(
        &mut self,
        files: &Files,
        before: Sizes,
        what: &What,
    ) -> Result<bool, Memory>
        requires { IsReadable (region_in files.now) }
        ensures { IfOk result (λ apart. (r : Region) → IsStepTo r what.now (region_in files.now) → sizes_of r ≡ before →
            Tells (recorded_payloads r) self.old self.new (recorded_payloads (region_in files.now)) apart) }
    {
        let sizes = files.sizes();
        if !self.look_at_changed(files, before.header, sizes.header, what)? {
            return Ok(false);
        }
        if !self.look_at_changed(files, before.size, sizes.size, what)? {
            return Ok(false);
        }
        self.look_at_changed(files, before.last_size, sizes.last_size, what)
    }

    // Looks at the payloads that a checksum may be meant for that was stored without a change, where `last` is the data word that was
    // stored last.
    pub(crate) fn look_at_meant(
        &mut self,
        files: &Files,
        last: Option<u32>,
        checksum: Option<u32>,
    ) -> Result<bool, Memory>
        ensures { IfOk result (Tells [] self.old self.new (meant (region_in files.now) last checksum)) }
    {
        match (last, checksum) {
            (Some(word), Some(checksum)) if word > 0 => {
                self.look_at_ends(files, 4 * word as usize, checksum)
            }
            _ => Ok(true),
        }
    }

    // Looks at the payloads with this checksum that end in the four bytes up to `end`.
    fn look_at_ends(&mut self, files: &Files, end: usize, checksum: u32) -> Result<bool, Memory>
        requires least { 4 ≤ end }
        requires most { end < 2 ^ 40 }
        ensures { IfOk result (Tells [] self.old self.new (summed (region_in files.now) checksum ((end - 3) ∷ (end - 2) ∷ (end - 1) ∷ end ∷ []))) }
    {
        for size in end - 3..end + 1 {
            if !self.look_where(files, size, checksum)? {
                return Ok(false);
            }
        }
        Ok(true)
    }

    // Looks at the payload of this size where it has this checksum.
    fn look_where(&mut self, files: &Files, size: usize, checksum: u32) -> Result<bool, Memory>
        ensures { IfOk result (Tells [] self.old self.new (summed (region_in files.now) checksum (size ∷ []))) }
    {
        match files.payload(size) {
            Some(payload) if crc32(payload) == checksum => self.look(payload),
            _ => Ok(true),
        }
    }

    // Looks at the payload of a size unless this is the one of the same size before the event.
    fn look_at_changed(
        &mut self,
        files: &Files,
        before: u32,
        size: u32,
        what: &What,
    ) -> Result<bool, Memory>
        ensures { IfOk result (λ apart. (r : Region) → IsStepTo r what.now (region_in files.now) →
            Tells (payload_at r before) self.old self.new (payload_at (region_in files.now) size) apart) }
    {
        if size == before && !touches(what, size) {
            return Ok(true);
        }
        self.look_at(files, size as usize)
    }

    // Looks at the payload of this size, where it fits.
    fn look_at(&mut self, files: &Files, size: usize) -> Result<bool, Memory>
        ensures { IfOk result (Tells [] self.old self.new (payload_at (region_in files.now) size)) }
    {
        match files.payload(size) {
            Some(payload) => self.look(payload),
            None => Ok(true),
        }
    }

    // False where another payload of its checksum was seen. The first of a checksum is copied.
    fn look(&mut self, payload: &[u8]) -> Result<bool, Memory>
        ensures { IfOk result (Tells [] self.old self.new (payload.now ∷ [])) }
    {
        let checksum = crc32(payload);
        if let Some(seen) = self.payloads.get(&checksum) {
            return Ok(seen.as_slice() == payload);
        }
        self.payloads.insert(checksum, payload.to_vec(self.alloc)?)?;
        Ok(true)
    }
}

// The checksum that an event stores without a change.
pub(crate) fn plain_checksum(what: &What) -> Option<u32>
    ensures { result ≡ plain_checksum what.now }
{
    match what {
        What::Store {
            side: Side::Meta,
            word: 0,
            value,
            mark: Mark::Plain,
        } => Some(*value),
        _ => None,
    }
}

// Whether an event may make another payload of this size: it changes a word of it, or the file may have become long enough.
fn touches(what: &What, size: u32) -> bool
    ensures { result ≡ touches what.now size }
{
    match what {
        What::Store {
            side: Side::Data,
            word,
            value: _,
            mark: _,
        } => lies_in(*word, size),
        What::Grow { size: _ } => true,
        What::Died { torn: Some(torn) } => lies_in(torn.word, size),
        _ => false,
    }
}

// Whether a data word has bytes of the payload of this size.
fn lies_in(word: u32, size: u32) -> bool
    ensures { result ≡ lies_in word size }
{
    word > 0 && 4 * (word as u64 - 1) < size as u64
}
