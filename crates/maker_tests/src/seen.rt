// The events of a region, as a test looks at them.
use region_words::{Event, LocalRegion, Mark, Side, What};
use std::alloc::{AllocError, Global};

/// A store: its maker, its place, its value, and whether it commits a change.
pub(crate) type Seen = (u32, Side, u32, u32, bool);

fn store_of(event: &Event) -> Option<Seen> {
    match &event.what {
        What::Store {
            side,
            word,
            value,
            mark,
        } => {
            let marked = match mark {
                Mark::Plain => false,
                Mark::Commit(_) => true,
            };
            Some((event.who, *side, *word, *value, marked))
        }
        _ => None,
    }
}

/// The events of a region, in their order; none for one that is no store.
pub(crate) fn seen_in(
    alloc: Global,
    region: &LocalRegion,
) -> Result<Vec<Option<Seen>>, AllocError> {
    let mut seen = Vec::new(alloc);
    for event in region.journal() {
        seen.push(store_of(event))?;
    }
    Ok(seen)
}
