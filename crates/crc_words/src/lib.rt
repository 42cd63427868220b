//! The checksum of bytes: CRC-32 as zlib computes it.
#![tactic(auto)]

mod checksum;
mod laws;
mod words;

pub use checksum::{POLYNOMIAL, crc32, crc32_from};
pub use laws::a_checksum_goes_on;
pub use words::crc32_words;
