//! Lengths, items and packed maps: how pairs are spelled in a payload.
#![tactic(auto)]

mod decode;
mod growth;
mod item;
mod laws;
mod length;
mod maps;
mod packed;

pub use decode::{ItemsStop, decode_all, decode_from, decode_greedy};
pub use growth::{LARGEST_FILE, grown_size};
pub use item::{Item, Items};
pub use laws::{
    a_change_adds_its_item_at_most, a_map_that_fits_is_small, a_map_that_is_read_fits,
    a_map_with_more_items_fits,
};
pub use length::{LengthFault, length_size, read_length, write_length};
pub use maps::{MapStop, extend, has_map, map_greedy, map_of, read_map};
pub use packed::{
    LONGEST_FIELD, a_packed_map_is_read_again, append_item, item_size, pack, packed_size,
};
