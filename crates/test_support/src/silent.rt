// A share that tells nothing of its journal, over words that others may change between its calls, as in real files.
ghost use Rattle.std.specs.Prelude.{◌≡◌, None, false};
ghost use Rattle.region_words.specs.Outside.{one_more};

use lock_rules::{LockKind, Tried};
use region_words::{Mark, Peek, Share, ShareStop, Side, TornStore, Unstored};

/// A share of opener 1. Its files have these words, and zeros behind them. Nothing is stored.
#[derive(Drop)]
pub struct Silent {
    data: [u32; 4],
    meta: [u32; 10],
    lock: Option<LockKind>,
    ended: bool,
    places: u32,
    room: u32,
    loads: u64,
}

impl Silent {
    ghost use Rattle.test_support.specs.Silent.{silent_state};

    /// Nobody holds a lock, and nothing was loaded yet.
    pub fn new(data: [u32; 4], meta: [u32; 10]) -> Self
        ensures alive { (silent_state result).ended ≡ false }
        ensures free { (silent_state result).holds ≡ None }
        ensures mute { (silent_state result).told ≡ None }
    {
        Silent {
            data,
            meta,
            lock: None,
            ended: false,
            places: 0,
            room: 0,
            loads: 0,
        }
    }

    /// Another opener leaves these two words.
    pub fn change(&mut self, checksum: u32, sequence: u32)
        ensures { silent_state self.new ≡ silent_state self.old }
    {
        self.meta[0] = checksum;
        self.meta[2] = sequence;
    }

    fn count_load(&mut self)
        ensures { self.new ≡ record self.old { loads = one_more self.old.loads } }
    {
        self.loads = self.loads.saturating_add(1);
    }
}

impl Share for Silent {
    ghost use Rattle.test_support.specs.Silent.{silent_state};

    ghost state = { silent_state };

    fn who(&self) -> u32 {
        1
    }

    fn changes(&self) -> u32 {
        0
    }

    fn size(&mut self) -> Result<u32, ShareStop> {
        self.count_load();
        Ok(4096)
    }

    fn load(&mut self, side: Side, word: u32) -> Result<u32, ShareStop> {
        self.count_load();
        let found = match side {
            Side::Data => self.data.get(word as usize).copied(),
            Side::Meta => self.meta.get(word as usize).copied(),
        };
        Ok(found.unwrap_or(0))
    }

    fn peek_checksum(&mut self) -> Result<Peek, ShareStop> {
        self.count_load();
        Ok(Peek {
            checksum: self.meta[0],
            changes: 0,
        })
    }

    fn peek_sequence(&mut self) -> Result<u32, ShareStop> {
        self.count_load();
        Ok(self.meta[2])
    }

    fn reserve(&mut self, events: u32, size: u32) -> Result<(), ShareStop> {
        let places = self.places.checked_add(events).ok_or(ShareStop::Memory)?;
        self.places = places;
        self.room = self.room.max(size);
        Ok(())
    }

    fn store(&mut self, _side: Side, _word: u32, _value: u32, _mark: Mark) -> Result<(), Unstored> {
        self.places -= 1;
        Ok(())
    }

    fn grow(&mut self, _size: u32) -> Result<(), ShareStop> {
        self.places -= 1;
        Ok(())
    }

    fn try_lock(&mut self, kind: LockKind) -> Result<Tried, ShareStop> {
        self.lock = Some(kind);
        self.places = 0;
        self.room = 0;
        Ok(Tried::Taken)
    }

    fn unlock(&mut self) -> Result<(), ShareStop> {
        self.lock = None;
        Ok(())
    }

    fn die(&mut self, _torn: Option<TornStore>) -> Result<(), ShareStop> {
        self.lock = None;
        self.ended = true;
        Ok(())
    }
}
