// The checksum of bytes that lie in words.
ghost use Rattle.std.specs.Prelude.{◌≡◌, ◌+◌, ◌*◌, ◌<◌, ◌≤◌, length, take, drop, slice_index};
ghost use Rattle.crc_words.specs.Crc.{crc_from};
ghost use Rattle.crc_words.specs.WordBytes.{bytes_of_words};

use crate::checksum::with_byte;

/// The same as `crc32_from` over the bytes `first` to `first + count` of the words, each lowest byte first.
pub fn crc32_words(prefix: u32, words: &[u32], first: usize, count: usize) -> u32
    requires { first + count ≤ 4 * length words.now }
    ensures { result ≡ crc_from prefix (take count (drop first (bytes_of_words words.now))) }
{
    let mut register = prefix ^ u32::MAX;
    for at in first..first + count {
        register = with_byte(register, byte_of(words, at));
    }
    register ^ u32::MAX
}

fn byte_of(words: &[u32], at: usize) -> u8
    requires { at < 4 * length words.now }
    ensures { result ≡ slice_index (bytes_of_words words.now) at }
{
    words[at / 4].to_le_bytes()[at % 4]
}

#[cfg(test)]
mod tests {
    use super::*;

    // the bytes of `x123456789yz`
    const WORDS: [u32; 3] = [0x3332_3178, 0x3736_3534, 0x7a79_3938];

    #[test]
    fn a_range_of_bytes_may_begin_and_end_within_words(rt: HostRuntime) {
        let rows = [
            (0, 1, 9, 0xcbf4_3926),
            (0, 1, 4, 0x9be3_e0a3),
            (0x9be3_e0a3, 5, 5, 0xcbf4_3926),
            (0, 0, 12, 0xa13b_0833),
            (0, 12, 0, 0),
        ];
        for (prefix, first, count, want) in rows {
            assert_eq!(rt;
                crc32_words(prefix, &WORDS, first, count),
                want,
                "from {first}"
            );
        }
    }
}
