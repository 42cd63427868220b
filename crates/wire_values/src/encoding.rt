// The bytes of a value.
ghost use Rattle.std.specs.Prelude.{◌≡◌, ◌^◌, ◌<◌, ◌++◌, IfOk, length};
ghost use Rattle.kv_pairs.specs.Lengths.{shortest};
ghost use Rattle.wire_values.specs.Values.{HasLength};
ghost use Rattle.wire_values.specs.Spelling.{spelling_of};

use crate::number::spell_number;
use crate::value::Value;
use expiring_map::{Bytes, Memory};
use kv_pairs::{length_size, write_length};
use std::alloc::Global;

/// The shortest spelling of a value. A Raw of no bytes, which has none, gives no bytes.
pub fn encode(alloc: Global, value: &Value) -> Result<Bytes, Memory>
    requires { HasLength value.now }
    ensures { IfOk result (λ bytes. bytes ≡ spelling_of value.now) }
{
    match value {
        Value::Bool(flag) => Bytes::copy_of(alloc, &[u8::from(*flag)]),
        Value::I32(number) => spell_number(alloc, i64::from(*number).cast_unsigned()),
        Value::U32(number) => spell_number(alloc, u64::from(*number)),
        Value::I64(number) => spell_number(alloc, number.cast_unsigned()),
        Value::U64(number) => spell_number(alloc, *number),
        Value::Text(bytes) | Value::Blob(bytes) => spell_text(alloc, bytes.as_slice()),
        Value::Raw(bytes) => Bytes::copy_of(alloc, bytes.as_slice()),
    }
}

// A length, and bytes of that length.
fn spell_text(alloc: Global, text: &[u8]) -> Result<Bytes, Memory>
    requires { length text.now < 2 ^ 31 }
    ensures { IfOk result (λ bytes. bytes ≡ shortest (length text.now) ++ text.now) }
{
    let size = text.len() as u32;
    let mut out = Vec::with_capacity(alloc, length_size(size) + text.len())?;
    write_length(size, &mut out)?;
    out.extend_from_slice(text)?;
    Ok(Bytes::of_vec(out))
}

#[cfg(test)]
mod tests {
    use super::*;
    use std::test::Fail;

    #[test]
    fn each_kind_has_its_shortest_spelling(rt: HostRuntime) -> Result<(), Fail> {
        let alloc = rt.alloc();
        let minus_one = b"\xff\xff\xff\xff\xff\xff\xff\xff\xff\x01";
        let rows: [(Value, &[u8]); 10] = [
            (Value::Bool(true), b"\x01"),
            (Value::Bool(false), b"\x00"),
            (Value::I32(-1), minus_one),
            (Value::I64(-1), minus_one),
            (Value::U64(u64::MAX), minus_one),
            (Value::U32(300), b"\xac\x02"),
            (Value::Text(Bytes::copy_of(alloc, b"abc")?), b"\x03abc"),
            (Value::Blob(Bytes::copy_of(alloc, b"")?), b"\x00"),
            (Value::Raw(Bytes::copy_of(alloc, b"abc")?), b"abc"),
            (Value::Raw(Bytes::copy_of(alloc, b"")?), b""),
        ];
        for (value, want) in &rows {
            assert_eq!(rt; encode(alloc, value)?.as_slice(), *want);
        }
        Ok(())
    }
}
