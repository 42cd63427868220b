// Reads and writes at places of a file, which go on where the system moves only a part of the bytes.
ghost use Rattle.std.specs.Prelude.{◌≡◌, ◌≤◌, length, IfOk};

use crate::tries::{read_at_again, write_at_again};
use std::io;
use std::io::{Error, ErrorKind};
use std::os::unix::fs::FileExt;

/// Reads from this word on as many bytes as the buffer takes and the file has, and says how many.
pub fn read_front<F: FileExt>(file: &F, first: u32, buffer: &mut [u8]) -> io::Result<usize>
    ensures within { IfOk result (λ n. n ≤ length buffer.new) }
    ensures same_size { length buffer.new ≡ length buffer.old }
{
    let mut filled = 0;
    // Each turn reads a byte, or is the last.
    for _ in 0..buffer.len() {
        if filled >= buffer.len() {
            break;
        }
        let n = read_at_again(file, &mut buffer[filled..], place(first, filled))?;
        if n == 0 {
            break;
        }
        filled += n;
    }
    Ok(filled)
}

/// Writes all these bytes from this word on.
pub fn write_whole<F: FileExt>(file: &F, first: u32, bytes: &[u8]) -> io::Result<()> {
    let mut written = 0;
    for _ in 0..bytes.len() {
        if written >= bytes.len() {
            break;
        }
        let n = write_at_again(file, &bytes[written..], place(first, written))?;
        if n == 0 {
            return Err(Error::from(ErrorKind::WriteZero));
        }
        written += n;
    }
    Ok(())
}

pub fn read_word<F: FileExt>(file: &F, word: u32) -> io::Result<u32> {
    let mut bytes = [0; 4];
    if read_front(file, word, &mut bytes)? < 4 {
        return Err(Error::from(ErrorKind::UnexpectedEof));
    }
    Ok(u32::from_le_bytes(bytes))
}

pub fn write_word<F: FileExt>(file: &F, word: u32, value: u32) -> io::Result<()> {
    write_whole(file, word, &value.to_le_bytes())
}

// So many bytes behind the beginning of a word.
fn place(word: u32, behind: usize) -> u64 {
    (4 * u64::from(word)).saturating_add(behind as u64)
}
