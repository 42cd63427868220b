// Whether events change words that are there.
ghost use Rattle.std.specs.Prelude.{◌≡◌, ◌≤◌, ◌↔◌, ◌+◌, ◌*◌, IsTrue, length, reverse};
ghost use Rattle.region_words.specs.Region.{Region, file_size, region_of};
ghost use Rattle.death_model.specs.InRange.{AreInRange, IsInRange, LawfulIsInRange};
ghost use Rattle.death_model.specs.FilesInside.{size_after};

use region_words::{Event, LARGEST_DATA, Side, What};

/// Whether each event, the oldest first, stores or tears a word that stands in its file by then, or grows the data file to more whole
/// pages, within its limit.
pub fn are_in_range(body: &[u8], meta: &[u8], events: &[Event]) -> bool
    ensures { IsTrue result ↔ AreInRange (region_of body.now meta.now) (reverse events.now) }
{
    let mut size = body.len();
    for event in events {
        if !is_in_range(size, meta.len(), &event.what) {
            return false;
        }
        size = size_after(size, &event.what);
    }
    true
}

/// The events of a journal are in range.
pub fn lawful_events_are_in_range()
    ensures { LawfulIsInRange }
{}

// Whether an event is in range of files of these sizes.
fn is_in_range(data_size: usize, meta_size: usize, what: &What) -> bool
    ensures { (r : Region) → file_size r ≡ data_size → length r.meta_bytes ≡ meta_size → IsTrue result ↔ IsInRange r what.now }
{
    match what {
        What::Store {
            side: Side::Data,
            word,
            value: _,
            mark: _,
        } => has_word(data_size, *word),
        What::Store {
            side: Side::Meta,
            word,
            value: _,
            mark: _,
        } => has_word(meta_size, *word),
        What::Grow { size } => {
            data_size < *size as usize && *size as usize <= LARGEST_DATA && *size % 4096 == 0
        }
        What::Died { torn: Some(torn) } => has_word(data_size, torn.word),
        _ => true,
    }
}

// The size of the data file after an event.
fn size_after(size: usize, what: &What) -> usize
    ensures { result ≡ size_after size what.now }
{
    match what {
        What::Grow { size } => *size as usize,
        _ => size,
    }
}

fn has_word(size: usize, word: u32) -> bool
    ensures { IsTrue result ↔ 4 * word + 4 ≤ size }
{
    4 * word as usize + 4 <= size
}

#[cfg(test)]
mod tests {
    use super::*;
    use lock_rules::LockKind;
    use region_words::TornWord;
    use std::alloc::Global;
    use std::test::Fail;

    // Whether a growth and then this event are in range of files of two pages, of data and of meta.
    fn goes(alloc: Global, size: u32, what: What) -> Result<bool, Fail> {
        let files = vec![in alloc; 0u8; 8192]?;
        let mut events = Vec::new(alloc);
        events.push(Event {
            who: 1,
            what: What::Grow { size },
        })?;
        events.push(Event { who: 1, what })?;
        Ok(are_in_range(&files, &files, &events))
    }

    #[test]
    fn events_are_in_range_of_the_files_as_they_are_by_then(rt: HostRuntime) -> Result<(), Fail> {
        let torn = |word| What::Died {
            torn: Some(TornWord { word, value: 0 }),
        };
        let rows = [
            (12_288, What::data(3071, 0), true),
            (12_288, What::data(3072, 0), false),
            (12_288, What::meta(2047, 0), true),
            (12_288, What::meta(2048, 0), false),
            (12_288, torn(3071), true),
            (12_288, torn(3072), false),
            (12_288, What::Grow { size: 12_288 }, false),
            (67_108_864, What::Lock(LockKind::Shared), true),
            (67_112_960, What::Unlock, false),
            (12_289, What::Unlock, false),
            (8192, What::Unlock, false),
        ];
        for (size, what, want) in rows {
            assert_eq!(rt; goes(rt.alloc(), size, what)?, want, "at {size}");
        }
        Ok(())
    }
}
