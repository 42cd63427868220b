// What a share of real files knows of itself.
use lock_rules::LockKind;

/// The lock that is held, whether the opener is dead, what is reserved, and the counts.
#[derive(Clone, Copy, Debug, PartialEq, Eq)]
pub struct Ledger {
    pub lock: Option<LockKind>,
    pub ended: bool,
    pub places: u32,
    pub room: u32,
    pub faults: u64,
    pub loads: u64,
    pub busy: u64,
}

impl Ledger {
    ghost use Rattle.std.specs.Prelude.{◌≡◌, None, Some};
    ghost use Rattle.region_words.specs.Outside.{one_more};
    ghost use Rattle.file_region.specs.Shares.{fresh};

    /// Nothing is held or reserved, and nothing was counted.
    pub fn new() -> Ledger
        ensures { result ≡ fresh }
    {
        Ledger {
            lock: None,
            ended: false,
            places: 0,
            room: 0,
            faults: 0,
            loads: 0,
            busy: 0,
        }
    }

    pub fn count_load(&mut self)
        ensures { self.new ≡ record self.old { loads = one_more self.old.loads } }
    {
        self.loads = self.loads.saturating_add(1);
    }

    pub fn count_busy(&mut self)
        ensures { self.new ≡ record self.old { busy = one_more self.old.busy } }
    {
        self.busy = self.busy.saturating_add(1);
    }

    /// Takes a lock; nothing is reserved yet.
    pub fn take(&mut self, kind: LockKind)
        ensures { self.new ≡ record self.old { lock = Some kind; places = 0; room = 0 } }
    {
        self.lock = Some(kind);
        self.places = 0;
        self.room = 0;
    }

    /// Gives the lock up, and what is reserved.
    pub fn let_go(&mut self)
        ensures { self.new ≡ record self.old { lock = None; places = 0; room = 0 } }
    {
        self.lock = None;
        self.places = 0;
        self.room = 0;
    }
}
