// The whole pages that a file counts as.
ghost use Rattle.std.specs.Prelude.{◌≡◌, IfOk};
ghost use Rattle.region_words.specs.Stores.{filled_up};

use expiring_map::Memory;

const PAGE: usize = 4096;

/// The bytes followed by zeros up to whole pages of 4096 bytes, at least one.
pub fn fill_up(mut bytes: Vec<u8>) -> Result<Vec<u8>, Memory>
    ensures { IfOk result (λ filled. filled.items ≡ filled_up bytes.items) }
{
    let pages = bytes.len().div_ceil(PAGE).max(1);
    bytes.resize(pages * PAGE, 0)?;
    Ok(bytes)
}
