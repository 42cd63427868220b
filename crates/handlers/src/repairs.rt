// The stores that put a region right which shows no whole image.
ghost use Rattle.std.specs.Prelude.{◌≡◌, ◌<◌, ◌^◌, All, IfErr, IfOk, OnOk, length};
ghost use Rattle.region_words.specs.Coming.{IsStoring};
ghost use Rattle.handlers.specs.Repairs.{IsNoRepair, discarding, in_place, restoring, size_repairing};

use change_log::Change;
use expiring_map::Memory;
use meta_record::{
    Record, WORD_CHECKSUM, WORD_LAST_CHECKSUM, WORD_LAST_SIZE, WORD_SEQUENCE, WORD_SIZE,
};
use region_words::{ListedEvents, Mark, PayloadWords, RowMaker, Side, Standing, What};
use std::alloc::Global;
use thiserror::Error;

/// Why a repair that raises the sequence is not begun. Nothing was stored.
#[derive(Clone, Copy, Debug, PartialEq, Eq, Error)]
pub enum RepairStop {
    /// The sequence is 2^32 - 1 and can't be raised.
    #[error("the sequence is at its end")]
    SequenceEnd,
    #[error("out of memory")]
    Memory,
}

/// The one store that repairs a region whose image is that of its header's size: the record's size becomes the header's. It
/// commits no change.
pub fn start_size_repair(alloc: Global, standing: &Standing) -> Result<RowMaker, Memory>
    ensures { IfOk result (λ row. row ≡ size_repairing standing.now) }
{
    let events = vec![in alloc; What::meta(WORD_SIZE as u32, standing.size)]?;
    Ok(row_of(alloc, events, *standing))
}

/// The stores that put the last confirmed image in the place of one that is broken: the sequence, the two sizes, and the checksum
/// with the change. `rec` is the region's, and `standing` what is known of the last confirmed image.
pub fn start_restore(
    alloc: Global,
    standing: &Standing,
    rec: &Record,
    change: Change,
) -> Result<RowMaker, RepairStop>
    ensures ok { IfOk result (λ row. row ≡ restoring standing.now rec.now change) }
    ensures begun { OnOk result (standing.now.sequence < 0xffffffff) }
    ensures err { IfErr result (IsNoRepair standing.now) }
{
    if standing.sequence == u32::MAX {
        return Err(RepairStop::SequenceEnd);
    }
    match restoring_events(alloc, standing, rec, change) {
        Ok(events) => {
            let after = Standing {
                sequence: standing.sequence + 1,
                size: rec.last_size,
                checksum: rec.last_checksum,
                ..*standing
            };
            Ok(row_of(alloc, events, after))
        }
        Err(Memory) => Err(RepairStop::Memory),
    }
}

/// The stores that put the empty image in the place of a damaged one: the sequence, both sizes, the checksum with the change, and the
/// last confirmed size and checksum.
pub fn start_discard(
    alloc: Global,
    standing: &Standing,
    change: Change,
) -> Result<RowMaker, RepairStop>
    ensures ok { IfOk result (λ row. row ≡ discarding standing.now change) }
    ensures begun { OnOk result (standing.now.sequence < 0xffffffff) }
    ensures err { IfErr result (IsNoRepair standing.now) }
{
    if standing.sequence == u32::MAX {
        return Err(RepairStop::SequenceEnd);
    }
    match discarding_events(alloc, standing, change) {
        Ok(events) => {
            let after = Standing {
                sequence: standing.sequence + 1,
                size: 0,
                checksum: 0,
                tail: 0,
                ..*standing
            };
            Ok(row_of(alloc, events, after))
        }
        Err(Memory) => Err(RepairStop::Memory),
    }
}

fn restoring_events(
    alloc: Global,
    standing: &Standing,
    rec: &Record,
    change: Change,
) -> Result<Vec<What>, Memory>
    requires { standing.now.sequence < 0xffffffff }
    ensures { IfOk result (λ events. events.items ≡ (restoring standing.now rec.now change).events) }
{
    Ok(vec![in alloc;
        What::meta(WORD_SEQUENCE as u32, standing.sequence + 1),
        What::data(0, rec.last_size),
        What::meta(WORD_SIZE as u32, rec.last_size),
        committing(rec.last_checksum, change),
    ]?)
}

fn discarding_events(
    alloc: Global,
    standing: &Standing,
    change: Change,
) -> Result<Vec<What>, Memory>
    requires { standing.now.sequence < 0xffffffff }
    ensures { IfOk result (λ events. events.items ≡ (discarding standing.now change).events) }
{
    Ok(vec![in alloc;
        What::meta(WORD_SEQUENCE as u32, standing.sequence + 1),
        What::data(0, 0),
        What::meta(WORD_SIZE as u32, 0),
        committing(0, change),
        What::meta(WORD_LAST_SIZE as u32, 0),
        What::meta(WORD_LAST_CHECKSUM as u32, 0),
    ]?)
}

// The store of the checksum, which commits the change.
fn committing(checksum: u32, change: Change) -> What
    ensures { result ≡ What.Store Side.Meta 0 checksum (Mark.Commit change) }
{
    What::Store {
        side: Side::Meta,
        word: WORD_CHECKSUM as u32,
        value: checksum,
        mark: Mark::Commit(change),
    }
}

// A row of these events, without a payload.
fn row_of(alloc: Global, events: Vec<What>, after: Standing) -> RowMaker
    requires few { length events.items < 2 ^ 32 }
    requires storing { All IsStoring events.items }
    ensures { result ≡ in_place events.items after }
{
    let no_payload = PayloadWords::new(1, Vec::new(alloc));
    let nothing = ListedEvents::new(Vec::new(alloc));
    RowMaker::new(ListedEvents::new(events), no_payload, nothing, 0, after)
}

#[cfg(test)]
mod tests {
    use super::*;
    use change_log::Act;
    use region_words::Next;
    use std::test::Fail;

    // What is known of an image of 12 bytes in a file of 16384.
    const LAST: Standing = Standing {
        sequence: 2,
        version: 3,
        flag: false,
        size: 12,
        checksum: 0x1234_5678,
        tail: 0,
        file_size: 16_384,
    };

    const RECORD: Record = Record {
        checksum: 1,
        version: 3,
        sequence: 2,
        size: 4110,
        last_size: 12,
        last_checksum: 0x1234_5678,
        flags: 0,
    };

    const NEXT_SEQUENCE: Next = Next::Store {
        side: Side::Meta,
        word: 2,
        value: 3,
    };

    #[test]
    fn a_size_repair_is_one_store(rt: HostRuntime) -> Result<(), Fail> {
        let row = start_size_repair(rt.alloc(), &LAST)?;
        let size = Next::Store {
            side: Side::Meta,
            word: 7,
            value: 12,
        };
        assert_eq!(rt; (row.events(), row.room(), row.next()), (1, 0, size));
        assert_eq!(rt; row.standing(), LAST);
        Ok(())
    }

    #[test]
    fn a_restore_is_four_stores_under_the_next_sequence(rt: HostRuntime) -> Result<(), Fail> {
        let change = Change {
            maker: 2,
            act: Act::Discarded,
        };
        let row = start_restore(rt.alloc(), &LAST, &RECORD, change)?;
        assert_eq!(rt;
            (row.events(), row.room(), row.next()),
            (4, 0, NEXT_SEQUENCE)
        );
        assert_eq!(rt;
            row.standing(),
            Standing {
                sequence: 3,
                ..LAST
            }
        );
        Ok(())
    }

    #[test]
    fn a_discard_is_six_stores_and_leaves_nothing(rt: HostRuntime) -> Result<(), Fail> {
        let change = Change {
            maker: 2,
            act: Act::Discarded,
        };
        let row = start_discard(rt.alloc(), &LAST, change)?;
        assert_eq!(rt;
            (row.events(), row.room(), row.next()),
            (6, 0, NEXT_SEQUENCE)
        );
        let empty = Standing {
            sequence: 3,
            size: 0,
            checksum: 0,
            ..LAST
        };
        assert_eq!(rt; row.standing(), empty);
        Ok(())
    }

    #[test]
    fn at_the_end_of_the_sequence_nothing_is_replaced(rt: HostRuntime) {
        let last = Standing {
            sequence: u32::MAX,
            ..LAST
        };
        let discard = || Change {
            maker: 1,
            act: Act::Discarded,
        };
        let restored = start_restore(rt.alloc(), &last, &RECORD, discard());
        assert_eq!(rt; restored.err(), Some(RepairStop::SequenceEnd));
        let discarded = start_discard(rt.alloc(), &last, discard());
        assert_eq!(rt; discarded.err(), Some(RepairStop::SequenceEnd));
    }
}
