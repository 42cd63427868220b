// Stores and loads of a share of files, under a lock.
ghost use Rattle.std.specs.Prelude.{◌≡◌, false, None, Some, OnOk, IsTrue};

use file_region::{FileShare, SharedFile};
use lock_rules::{LockKind, Tried};
use region_words::{Mark, Share, ShareStop, Side};
use std::alloc::Global;

// The lock is asked for, and had.
pub(crate) fn lock<F: SharedFile>(share: &mut FileShare<F>, kind: LockKind) -> bool
    requires alive { share.old.ledger.ended ≡ false }
    requires free { share.old.ledger.lock ≡ None }
    ensures held { IsTrue result → share.new.ledger.lock ≡ Some kind }
    ensures alive { IsTrue result → share.new.ledger.ended ≡ false }
{
    share.try_lock(kind) == Ok(Tried::Taken)
}

// Stores words under the exclusive lock, which is held, one after another.
pub(crate) fn store_all<F: SharedFile>(
    share: &mut FileShare<F>,
    stores: &[(Side, u32, u32)],
) -> Result<(), ShareStop>
    requires alive { share.old.ledger.ended ≡ false }
    requires held { share.old.ledger.lock ≡ Some LockKind.Exclusive }
    ensures alive { OnOk result (share.new.ledger.ended ≡ false) }
    ensures held { OnOk result (share.new.ledger.lock ≡ Some LockKind.Exclusive) }
{
    for (side, word, value) in stores {
        store_one(share, *side, *word, *value)?;
    }
    Ok(())
}

fn store_one<F: SharedFile>(
    share: &mut FileShare<F>,
    side: Side,
    word: u32,
    value: u32,
) -> Result<(), ShareStop>
    requires alive { share.old.ledger.ended ≡ false }
    requires held { share.old.ledger.lock ≡ Some LockKind.Exclusive }
    ensures alive { OnOk result (share.new.ledger.ended ≡ false) }
    ensures held { OnOk result (share.new.ledger.lock ≡ Some LockKind.Exclusive) }
{
    share.reserve(1, 0)?;
    match share.store(side, word, value, Mark::Plain) {
        Ok(()) => Ok(()),
        Err(unstored) => Err(unstored.stop),
    }
}

// Loads so many words from this one on.
pub(crate) fn load_all<F: SharedFile>(
    alloc: Global,
    share: &mut FileShare<F>,
    side: Side,
    first: u32,
    count: u32,
) -> Result<Vec<u32>, ShareStop>
    requires alive { share.old.ledger.ended ≡ false }
    ensures alive { OnOk result (share.new.ledger.ended ≡ false) }
    ensures held { OnOk result (share.new.ledger.lock ≡ share.old.ledger.lock) }
{
    let mut words = Vec::new(alloc);
    for word in first..first.saturating_add(count) {
        words
            .push(share.load(side, word)?)
            .map_err(|_| ShareStop::Memory)?;
    }
    Ok(words)
}

// A word under the shared lock, which is given up again.
pub(crate) fn look<F: SharedFile>(
    share: &mut FileShare<F>,
    side: Side,
    word: u32,
) -> Result<u32, ShareStop>
    requires alive { share.old.ledger.ended ≡ false }
    requires free { share.old.ledger.lock ≡ None }
    ensures alive { OnOk result (share.new.ledger.ended ≡ false) }
    ensures free { OnOk result (share.new.ledger.lock ≡ None) }
{
    if !lock(share, LockKind::Shared) {
        return Err(ShareStop::Turn);
    }
    let value = share.load(side, word)?;
    share.unlock()?;
    Ok(value)
}

// Stores words under the exclusive lock, and gives it up again.
pub(crate) fn change<F: SharedFile>(
    share: &mut FileShare<F>,
    stores: &[(Side, u32, u32)],
) -> Result<(), ShareStop>
    requires alive { share.old.ledger.ended ≡ false }
    requires free { share.old.ledger.lock ≡ None }
    ensures alive { OnOk result (share.new.ledger.ended ≡ false) }
    ensures free { OnOk result (share.new.ledger.lock ≡ None) }
{
    if !lock(share, LockKind::Exclusive) {
        return Err(ShareStop::Turn);
    }
    store_all(share, stores)?;
    share.unlock()
}

// Grows the data file under the exclusive lock, which is held.
pub(crate) fn grow<F: SharedFile>(share: &mut FileShare<F>, size: u32) -> Result<(), ShareStop>
    requires alive { share.old.ledger.ended ≡ false }
    requires held { share.old.ledger.lock ≡ Some LockKind.Exclusive }
    ensures alive { OnOk result (share.new.ledger.ended ≡ false) }
    ensures held { OnOk result (share.new.ledger.lock ≡ Some LockKind.Exclusive) }
{
    share.reserve(1, size)?;
    share.grow(size)
}
