// The spelling of a length: seven bits a byte, the lowest first, the high bit on each byte but the last.
ghost use Rattle.std.specs.Prelude.{◌≡◌, ◌^◌, ◌<◌, ◌≤◌, ◌↔◌, ◌++◌, IfOk, OnOk, OnErr, IsTrue, IsErrOf, Some, drop, take, length, None};
ghost use Rattle.kv_pairs.specs.Lengths.{Spells, shortest};
ghost use Rattle.kv_pairs.specs.Reading.{length_at, number_in};
ghost use Rattle.kv_pairs.specs.Faults.{is_cut, is_too_long, all_high};

use expiring_map::Memory;
use thiserror::Error;

/// Why no length stands at the front of some bytes.
#[derive(Clone, Copy, Debug, PartialEq, Eq, Error)]
pub enum LengthFault {
    #[error("the bytes end inside a length")]
    Cut,
    #[error("a length of more than five bytes, or of 2^31 or more")]
    TooLong,
}

/// The length at the front, and how many bytes it takes. Bytes may follow it.
#[tactic(auto, unfolding(crate::specs::Reading::length_at))]
pub fn read_length(bytes: &[u8]) -> Result<(u32, usize), LengthFault>
    ensures ok { IfOk result (λ r. length_at bytes.now ≡ Some (r.0, drop r.1 bytes.now)) }
    ensures size { IfOk result (λ r. r.1 ≤ length bytes.now) }
    ensures spelled { IfOk result (λ r. Spells (take r.1 bytes.now) r.0) }
    ensures none { OnErr result (length_at bytes.now ≡ None) }
    ensures cut { IsErrOf result LengthFault.Cut ↔ IsTrue (is_cut bytes.now) }
    ensures long { IsErrOf result LengthFault.TooLong ↔ IsTrue (is_too_long bytes.now) }
{
    let (number, size) = read_number(bytes, 5)?;
    if number < 1 << 31 {
        Ok((number as u32, size))
    } else {
        Err(LengthFault::TooLong)
    }
}

// A number in at most so many bytes, and how many it takes.
fn read_number(bytes: &[u8], most: u32) -> Result<(u64, usize), LengthFault>
    requires { most ≤ 8 }
    ensures ok { IfOk result (λ r. number_in most bytes.now ≡ Some (r.0, drop r.1 bytes.now)) }
    ensures size { IfOk result (λ r. r.1 ≤ length bytes.now) }
    ensures bound { IfOk result (λ r. r.0 < 128 ^ most) }
    ensures none { OnErr result (number_in most bytes.now ≡ None) }
    ensures cut { IsErrOf result LengthFault.Cut → (length bytes.now < most) × IsTrue (all_high bytes.now) }
    ensures long { IsErrOf result LengthFault.TooLong → (most ≤ length bytes.now) × IsTrue (all_high (take most bytes.now)) }
{
    if most == 0 {
        return Err(LengthFault::TooLong);
    }
    match bytes.split_first() {
        None => Err(LengthFault::Cut),
        Some((last, _)) if *last < 128 => Ok((u64::from(*last), 1)),
        Some((first, rest)) => {
            let (number, size) = read_number(rest, most - 1)?;
            Ok((u64::from(*first % 128) + 128 * number, size + 1))
        }
    }
}

/// How many bytes the shortest spelling takes.
pub fn length_size(n: u32) -> usize
    ensures size { result ≡ length (shortest n) }
    ensures most { result ≤ 5 }
{
    match n {
        0..=0x7f => 1,
        0x80..=0x3fff => 2,
        0x4000..=0x1f_ffff => 3,
        0x20_0000..=0xfff_ffff => 4,
        _ => 5,
    }
}

/// Appends the shortest spelling. After `Memory` nothing was appended.
pub fn write_length(n: u32, out: &mut Vec<u8>) -> Result<(), Memory>
    requires { n < 2 ^ 31 }
    ensures ok { OnOk result (out.new.items ≡ out.old.items ++ shortest n) }
    ensures err { OnErr result (out.new.items ≡ out.old.items) }
{
    let mut groups = [0; 5];
    let mut size = 0;
    let mut left = n;
    while left >= 128 {
        groups[size] = (left % 128) as u8 + 128;
        size += 1;
        left /= 128;
    }
    groups[size] = left as u8;
    out.extend_from_slice(&groups[..size + 1])?;
    Ok(())
}

#[cfg(test)]
mod tests {
    use super::*;
    use std::test::Fail;

    #[test]
    fn a_length_takes_its_shortest_spelling(rt: HostRuntime) -> Result<(), Fail> {
        let rows: [(u32, &[u8]); 6] = [
            (0, &[0x00]),
            (127, &[0x7f]),
            (128, &[0x80, 0x01]),
            (16_383, &[0xff, 0x7f]),
            (16_384, &[0x80, 0x80, 0x01]),
            (2_147_483_647, &[0xff, 0xff, 0xff, 0xff, 0x07]),
        ];
        for (n, spelled) in rows.iter() {
            assert!(rt; *n < 1 << 31);
            let mut out = Vec::new(rt.alloc());
            write_length(*n, &mut out)?;
            assert_eq!(rt; out.as_slice(), *spelled, "at {n}");
            assert_eq!(rt; length_size(*n), spelled.len(), "at {n}");
            assert_eq!(rt; read_length(spelled), Ok((*n, spelled.len())), "at {n}");
        }
        Ok(())
    }

    #[test]
    fn a_length_may_be_longer_than_needed_and_at_most_five_bytes(rt: HostRuntime) {
        let rows: [(&[u8], Result<(u32, usize), LengthFault>); 8] = [
            (&[0x80, 0x00, 0x05], Ok((0, 2))),
            (&[0x81, 0x80, 0x80, 0x80, 0x00], Ok((1, 5))),
            (
                &[0xff, 0xff, 0xff, 0xff, 0x07, 0x09],
                Ok((2_147_483_647, 5)),
            ),
            (&[0x80, 0x80, 0x80, 0x80, 0x08], Err(LengthFault::TooLong)),
            (
                &[0x80, 0x80, 0x80, 0x80, 0x80, 0x00],
                Err(LengthFault::TooLong),
            ),
            (&[0x80, 0x80, 0x80, 0x80], Err(LengthFault::Cut)),
            (&[0xff], Err(LengthFault::Cut)),
            (&[], Err(LengthFault::Cut)),
        ];
        for (bytes, want) in rows.iter() {
            assert_eq!(rt; read_length(bytes), *want);
        }
    }
}
