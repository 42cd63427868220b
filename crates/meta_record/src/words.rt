// Words of 32 bits in a list of bytes, the lowest byte first.
ghost use Rattle.std.specs.Prelude.{◌≡◌, ◌+◌, ◌*◌, ◌≤◌, length};
ghost use Rattle.meta_record.specs.Words.{word_at, with_word};

use byteorder::{ByteOrder, LittleEndian};

/// The word at a place, counted in words.
pub fn load_word(bytes: &[u8], word: usize) -> u32
    requires { 4 * word + 4 ≤ length bytes.now }
    ensures { result ≡ word_at bytes.now word }
{
    LittleEndian::read_u32(&bytes[4 * word..])
}

/// Puts a word in its place, counted in words. No other byte changes.
pub fn store_word(bytes: &mut [u8], word: usize, value: u32)
    requires { 4 * word + 4 ≤ length bytes.old }
    ensures { bytes.new ≡ with_word bytes.old word value }
{
    LittleEndian::write_u32(&mut bytes[4 * word..], value);
}

#[cfg(test)]
mod tests {
    use super::*;

    #[test]
    fn the_lowest_byte_of_a_word_comes_first(rt: HostRuntime) {
        let mut bytes = [1u8, 2, 3, 4, 5, 6, 7, 8, 9];
        assert_eq!(rt; load_word(&bytes, 1), 0x0807_0605);
        store_word(&mut bytes, 1, 0xaabb_ccdd);
        assert_eq!(rt; bytes, [1u8, 2, 3, 4, 0xdd, 0xcc, 0xbb, 0xaa, 9]);
    }
}
