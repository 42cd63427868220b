//! A region of two files of words, and the journal of what its openers did to it.
#![tactic(auto)]

mod account;
mod clock;
mod copies;
mod event;
mod failing;
mod id;
mod laws;
mod listed_events;
mod mem_shelf;
mod mem_sink;
mod mem_source;
mod next;
mod pages;
mod payload_words;
mod places;
mod region;
mod row_maker;
mod seat;
mod share;
mod shelf;
mod showing;
mod sink;
mod source;
mod standing;
mod stops;

pub use account::Account;
pub use clock::{Clock, SetClock};
pub use copies::changes_in;
pub use event::{Event, Mark, Side, TornWord, What};
pub use failing::Failing;
pub use id::is_id;
pub use laws::{
    a_cut_append_shows_its_history, a_cut_restore_shows_the_last_image,
    a_cut_row_shows_its_history, a_holder_sees_one_region, a_partial_load_that_holds_is_whole,
    a_region_at_rest_shows_its_history, a_region_stays_a_region, a_row_is_made_from_its_standing,
    a_row_leaves_its_standing, a_whole_row_shows_a_whole_image,
    an_equal_sequence_tells_that_the_image_stands, equal_peeks_tell_that_nothing_changed,
    no_row_is_under_way_where_nobody_holds_exclusive, the_last_confirmed_image_is_shown,
    what_holds_of_a_journal_holds_of_its_fronts, what_is_packed_is_bytes,
};
pub use listed_events::ListedEvents;
pub use mem_shelf::{MemShelf, Shelved};
pub use mem_sink::MemSink;
pub use mem_source::MemSource;
pub use next::{Next, Stored};
pub use pages::fill_up;
pub use payload_words::{PayloadWords, tail_word};
pub use places::{AdmitStop, MOST_EVENTS};
pub use region::{LocalRegion, RegionStop};
pub use row_maker::RowMaker;
pub use seat::LocalSeat;
pub use share::Share;
pub use shelf::{Brought, LARGEST_DATA, LARGEST_META, Shelf, ShelfStop};
pub use showing::{base_map, shown, size_of};
pub use sink::Sink;
pub use source::{Failed, Source};
pub use standing::Standing;
pub use stops::{Peek, ShareStop, TornStore, Unstored};
