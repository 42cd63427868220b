// The map that a region showed at its start.
ghost use Rattle.std.specs.Prelude.{◌≡◌, [], IfOk};
ghost use Rattle.region_words.specs.Region.{IsAccepted, base};

use expiring_map::{ExpiringMap, Memory};
use region_words::{LocalRegion, base_map, shown};
use std::alloc::Global;

// The map that a region shows to which nothing was done yet, empty where it is damaged.
pub(crate) fn start_map(alloc: Global, region: &LocalRegion) -> Result<ExpiringMap, Memory>
    requires past { region.now.past ≡ [] }
    requires accepted { IsAccepted region.now.start }
    ensures { IfOk result (λ map. map ≡ base region.now.start) }
{
    region.journal();
    let body = region.data_bytes();
    let meta = region.meta_bytes();
    match shown(body, meta) {
        Ok(seen) => base_map(alloc, body, meta, seen),
        Err(_) => unreachable!(),
    }
}
