// The spelling of a number of 64 bits: seven bits a byte, the lowest first, the high bit on each byte but the last.
ghost use Rattle.std.specs.Prelude.{◌≡◌, ℕ, ◌^◌, ◌<◌, ◌≤◌, IfOk, IfSome, IfNone, length};
ghost use Rattle.kv_pairs.specs.Lengths.{IsVarint, varint_value};
ghost use Rattle.wire_values.specs.Values.{IsNumber};
ghost use Rattle.wire_values.specs.Spelling.{number_spelling};

use expiring_map::{Bytes, Memory};
use std::alloc::Global;

// The number that all these bytes spell.
pub(crate) fn read_number(bytes: &[u8]) -> Option<u64>
    ensures some { IfSome result (IsNumber bytes.now) }
    ensures none { IfNone result ((n : ℕ) → IsNumber bytes.now n → ⊥) }
{
    let number = read_groups(bytes, 10)?;
    if number < 1 << 64 {
        Some(number as u64)
    } else {
        None
    }
}

// The number that all these bytes spell, where they are so many at most.
fn read_groups(bytes: &[u8], most: u32) -> Option<u128>
    requires { most ≤ 10 }
    ensures chain { IfSome result (λ n. IsVarint bytes.now) }
    ensures size { IfSome result (λ n. length bytes.now ≤ most) }
    ensures value { IfSome result (λ n. n ≡ varint_value bytes.now) }
    ensures bound { IfSome result (λ n. n < 128 ^ most) }
    ensures none { IfNone result (IsVarint bytes.now → length bytes.now ≤ most → ⊥) }
{
    if most == 0 {
        return None;
    }
    match bytes.split_first() {
        None => None,
        Some((last, [])) if *last < 128 => Some(u128::from(*last)),
        Some((first, rest)) => {
            if *first < 128 {
                return None;
            }
            Some(u128::from(*first % 128) + 128 * read_groups(rest, most - 1)?)
        }
    }
}

// The shortest spelling of a number.
pub(crate) fn spell_number(alloc: Global, n: u64) -> Result<Bytes, Memory>
    ensures { IfOk result (λ bytes. bytes ≡ number_spelling n) }
{
    let mut groups = [0; 10];
    let mut size = 0;
    let mut left = n;
    while left >= 128 {
        groups[size] = (left % 128) as u8 + 128;
        size += 1;
        left /= 128;
    }
    groups[size] = left as u8;
    Bytes::copy_of(alloc, &groups[..size + 1])
}
