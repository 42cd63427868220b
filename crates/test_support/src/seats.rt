// A seat at a region in memory.
ghost use Rattle.std.specs.Prelude.{◌≡◌, false, [], None, IfSome};
ghost use Rattle.region_words.specs.Stores.{filled_up};
ghost use Rattle.region_words.specs.Local.{seat_state};

use region_words::{LocalRegion, LocalSeat};
use std::alloc::Global;

/// A region of these files whose opener 1 may make events. Its calls of the listed numbers fail.
pub fn opened(alloc: Global, body: &[u8], meta: &[u8], fails: &[u64]) -> Option<LocalSeat>
    ensures alive { IfSome result (λ s. (seat_state s).ended ≡ false) }
    ensures free { IfSome result (λ s. (seat_state s).holds ≡ None) }
    ensures maker { IfSome result (λ s. s.who ≡ 1) }
    ensures past { IfSome result (λ s. s.region.past ≡ []) }
    ensures start { IfSome result (λ s. s.region.start ≡ record { data_bytes = filled_up body.now; meta_bytes = filled_up meta.now }) }
{
    let body = body.to_vec(alloc).ok()?;
    let meta = meta.to_vec(alloc).ok()?;
    let mut region = LocalRegion::new(alloc, body, meta).ok()?;
    region.fail_at(fails.to_vec(alloc).ok()?);
    region.admit(1).ok()?;
    Some(region.seat(1))
}
