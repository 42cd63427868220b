// Runs of the top call over stores in memory.
ghost use Rattle.std.specs.Prelude.{◌≡◌, []};
ghost use Rattle.mmkv_top.specs.Stocked.{OfAll};

use expiring_map::{Bytes, Memory};
use handlers::HandlerStock;
use mmkv_top::{Status, run};
use region_words::{MemShelf, MemSink, MemSource};
use std::alloc::Global;

// A shelf with one store, s, of these files.
pub(crate) fn shelf_with(alloc: Global, body: Vec<u8>, meta: &[u8]) -> Result<MemShelf, Memory> {
    let mut shelf = MemShelf::new(alloc);
    shelf.add(Bytes::copy_of(alloc, b"s")?, body, meta.to_vec(alloc)?)?;
    Ok(shelf)
}

// The status of a run of these words, and what it wrote into a sink of this room.
pub(crate) fn ran(
    alloc: Global,
    words: &[&[u8]],
    shelf: &mut MemShelf,
    mut input: MemSource,
    stock: HandlerStock,
    room: usize,
) -> Result<(u8, Vec<u8>), Memory>
    requires { OfAll (λ h. (told h ≡ []) × (changes_told h ≡ [])) stock }
{
    let mut line = Vec::new(alloc);
    for word in words {
        line.push(Bytes::copy_of(alloc, word)?)?;
    }
    let mut out = MemSink::new(alloc, room, Vec::new(alloc))?;
    let Status(status) = run(alloc, &line, shelf, &mut input, &mut out, stock);
    Ok((status, out.written().to_vec(alloc)?))
}

// The same without an input and without handlers.
pub(crate) fn ran_bare(
    alloc: Global,
    words: &[&[u8]],
    shelf: &mut MemShelf,
    room: usize,
) -> Result<(u8, Vec<u8>), Memory> {
    let input = MemSource::new(Vec::new(alloc), Vec::new(alloc));
    let stock = HandlerStock::new(Vec::new(alloc), Vec::new(alloc), Vec::new(alloc));
    ran(alloc, words, shelf, input, stock, room)
}

// A dump of the store of these files.
pub(crate) fn dumped(alloc: Global, body: Vec<u8>, meta: &[u8]) -> Result<(u8, Vec<u8>), Memory> {
    let mut shelf = shelf_with(alloc, body, meta)?;
    ran_bare(alloc, &[b"dir", b"dump", b"s"], &mut shelf, 8192)
}
