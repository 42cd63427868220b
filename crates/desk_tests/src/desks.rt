// A desk of two openers.
ghost use Rattle.std.specs.Prelude.{◌≡◌, true, [], IfSome};
ghost use Rattle.region_words.specs.Local.{account_of};
ghost use Rattle.desk_tests.specs.Desks.{IsNew};

use region_words::LocalRegion;
use std::alloc::Global;
use step_desk::{Desk, Pass};
use test_support::{BODY, META};

// A region of the store with the pair k, abc, in which openers 1 and 2 may make events. Its calls of the listed numbers fail.
fn region_of_two(alloc: Global, fails: &[u64]) -> Option<LocalRegion>
    ensures first { IfSome result (λ r. (account_of r.accounts 1).admitted ≡ true) }
    ensures second { IfSome result (λ r. (account_of r.accounts 2).admitted ≡ true) }
    ensures past { IfSome result (λ r. r.past ≡ []) }
{
    let body = BODY.to_vec(alloc).ok()?;
    let meta = META.to_vec(alloc).ok()?;
    let mut region = LocalRegion::new(alloc, body, meta).ok()?;
    region.fail_at(fails.to_vec(alloc).ok()?);
    region.admit(1).ok()?;
    region.admit(2).ok()?;
    Some(region)
}

pub(crate) fn desk_of_two(alloc: Global, fails: &[u64]) -> Option<(Desk, Pass)>
    ensures { IfSome result (λ r. IsNew r.0 r.1) }
{
    let region = region_of_two(alloc, fails)?;
    Desk::new(alloc, region, 2).ok()
}
