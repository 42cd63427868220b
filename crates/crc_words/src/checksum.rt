// CRC-32, bit by bit.
ghost use Rattle.std.specs.Prelude.{◌≡◌};
ghost use Rattle.crc_words.specs.Crc.{after_bit, after_byte, crc, crc_from};

/// The generator polynomial, lowest power in the highest bit.
pub const POLYNOMIAL: u32 = 0xedb8_8320;

/// The checksum CRC-32 of these bytes, as zlib computes it.
pub fn crc32(bytes: &[u8]) -> u32
    ensures { result ≡ crc bytes.now }
{
    crc32_from(0, bytes)
}

/// The checksum of a list whose checksum is `prefix`, with these bytes behind it.
pub fn crc32_from(prefix: u32, bytes: &[u8]) -> u32
    ensures { result ≡ crc_from prefix bytes.now }
{
    let mut register = prefix ^ u32::MAX;
    for byte in bytes {
        register = with_byte(register, *byte);
    }
    register ^ u32::MAX
}

// The register after one byte comes.
pub fn with_byte(register: u32, byte: u8) -> u32
    ensures { result ≡ after_byte register byte }
{
    let mut register = register;
    let mut rest = byte as u32;
    for _ in 0..8u32 {
        register = with_bit(register, rest % 2);
        rest /= 2;
    }
    register
}

fn with_bit(register: u32, bit: u32) -> u32
    ensures { result ≡ after_bit register bit }
{
    if register % 2 == bit {
        register / 2
    } else {
        (register / 2) ^ POLYNOMIAL
    }
}

#[cfg(test)]
mod tests {
    use super::*;

    #[test]
    fn the_check_value_of_the_standard_comes_whole_or_in_two_parts(rt: HostRuntime) {
        assert_eq!(rt; crc32(b"123456789"), 0xcbf4_3926);
        assert_eq!(rt; crc32(b"1234"), 0x9be3_e0a3);
        assert_eq!(rt; crc32_from(0x9be3_e0a3, b"56789"), 0xcbf4_3926);
        assert_eq!(rt; crc32_from(0xcbf4_3926, b""), 0xcbf4_3926);
        assert_eq!(rt; crc32(b""), 0);
    }
}
