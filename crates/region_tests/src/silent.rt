// Shares used by the clauses of the trait alone: one that tells nothing of its journal, as one over real files, and a seat.
ghost use Rattle.std.specs.Prelude.{◌≡◌, None, false};

use lock_rules::{LockKind, Tried};
use region_words::{Share, ShareStop};
use test_support::{Silent, opened};

fn lock_and_reserve<S: Share>(share: &mut S) -> Result<(), ShareStop>
    requires alive { (S.state share.old).ended ≡ false }
    requires free { (S.state share.old).holds ≡ None }
{
    if share.try_lock(LockKind::Exclusive)? == Tried::Taken {
        share.reserve(1, 0)?;
    }
    Ok(())
}

#[test]
fn a_share_that_tells_nothing_is_used_by_its_clauses(rt: HostRuntime) {
    let mut share = Silent::new([0; 4], [0; 10]);
    assert_eq!(rt; share.size(), Ok(4096));
    assert_eq!(rt; lock_and_reserve(&mut share), Ok(()));
}

#[test]
fn a_seat_is_used_by_the_same_clauses(rt: HostRuntime) {
    let mut seat = opened(rt.alloc(), b"", b"", &[]).expect(&rt, "ample memory");
    assert_eq!(rt; lock_and_reserve(&mut seat), Ok(()));
}
