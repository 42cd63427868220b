// Reads and writes that are made again where a signal interrupts them before they have moved a byte.
ghost use Rattle.std.specs.Prelude.{◌≡◌, ◌≤◌, length, IfOk};

use std::io;
use std::io::{ErrorKind, Read};
use std::os::unix::fs::FileExt;

/// How often a call is tried at most. The last interruption is its answer.
pub const MOST_TRIES: u32 = 1_000;

pub fn read_again<R: Read>(reader: &mut R, buffer: &mut [u8]) -> io::Result<usize>
    ensures within { IfOk result (λ n. n ≤ length buffer.old) }
{
    for _ in 1..MOST_TRIES {
        match reader.read(buffer) {
            Err(error) if error.kind() == ErrorKind::Interrupted => {}
            done => return done,
        }
    }
    reader.read(buffer)
}

pub fn write_again<R: Print>(rt: &R, piece: &[u8]) -> io::Result<usize>
    ensures within { IfOk result (λ n. n ≤ length piece.now) }
{
    for _ in 1..MOST_TRIES {
        match rt.write_some(piece) {
            Err(error) if error.kind() == ErrorKind::Interrupted => {}
            done => return done,
        }
    }
    rt.write_some(piece)
}

pub fn read_at_again<F: FileExt>(file: &F, buffer: &mut [u8], place: u64) -> io::Result<usize>
    ensures within { IfOk result (λ n. n ≤ length buffer.new) }
    ensures same_size { length buffer.new ≡ length buffer.old }
{
    for _ in 1..MOST_TRIES {
        match file.read_at(buffer, place) {
            Err(error) if error.kind() == ErrorKind::Interrupted => {}
            done => return done,
        }
    }
    file.read_at(buffer, place)
}

pub fn write_at_again<F: FileExt>(file: &F, piece: &[u8], place: u64) -> io::Result<usize>
    ensures within { IfOk result (λ n. n ≤ length piece.now) }
{
    for _ in 1..MOST_TRIES {
        match file.write_at(piece, place) {
            Err(error) if error.kind() == ErrorKind::Interrupted => {}
            done => return done,
        }
    }
    file.write_at(piece, place)
}
