// A store of one pair.

/// The data file of a store with the pair k, abc, without the zeros behind its payload.
pub const BODY: [u8; 15] = *b"\x0b\0\0\0\xff\xff\xff\x07\x01k\x04\x03abc";

/// Its meta file. The checksums are those of zlib.
pub const META: [u8; 40] =
    *b"\xd3\x95\x65\x3a\x03\0\0\0\x01\0\0\0\0\0\0\0\0\0\0\0\0\0\0\0\0\0\0\0\x0b\0\0\0\x04\0\0\0\xd1\x85\x99\x4c";
