// Values as words of a command line.
ghost use Rattle.std.specs.Prelude.{◌≡◌, ◌≢◌, ◌↔◌, Err, ℕ, ◌^◌, ◌<◌, ◌++◌, List, ℤ, Bool, IfOk, OnOk, OnErr, IfSome, IfNone, IsTrue, IsErrOf, decimal};
ghost use Rattle.std.specs.Fmt.{signed_decimal};
ghost use Rattle.hex.specs.Hex.{decode_of, encode_lower, is_hex_digit};
ghost use Rattle.std.specs.List.{AllPass};
ghost use Rattle.wire_values.specs.Values.{kind_of};
ghost use Rattle.wire_values.specs.Words.{SpellsWord, SpellsNoWord, SpellsSomeWord, word_of};
ghost use Rattle.wire_values.specs.declared.value.Value.TheVariants as value;

use crate::decoding::ValueStop;
use crate::value::{Kind, Value};
use expiring_map::{Bytes, Memory};
use itoa::Buffer;
use std::alloc::Global;

/// The value of this kind that a word of a command line spells.
pub fn read_word(alloc: Global, kind: Kind, word: &[u8]) -> Result<Value, ValueStop>
    ensures kind { IfOk result (λ v. kind_of v ≡ kind) }
    ensures ok { IfOk result (λ v. SpellsWord word.now v) }
    ensures shape { IsErrOf result ValueStop.WrongShape → SpellsNoWord word.now kind }
    ensures memory { IsErrOf result ValueStop.Memory → SpellsSomeWord word.now kind }
{
    match kind {
        Kind::Bool => bool_in(word).map(Value::Bool).ok_or(ValueStop::WrongShape),
        Kind::I32 => i32_in(word).map(Value::I32).ok_or(ValueStop::WrongShape),
        Kind::U32 => u32_in(word).map(Value::U32).ok_or(ValueStop::WrongShape),
        Kind::I64 => i64_in(word).map(Value::I64).ok_or(ValueStop::WrongShape),
        Kind::U64 => u64_in(word).map(Value::U64).ok_or(ValueStop::WrongShape),
        Kind::Text => text_in(alloc, word).map(Value::Text),
        Kind::Blob => hex_in(alloc, word).map(Value::Blob),
        Kind::Raw => hex_in(alloc, word).map(Value::Raw),
    }
}

fn bool_in(word: &[u8]) -> Option<bool>
    ensures some { IfSome result (λ b. SpellsWord word.now (value.Bool b)) }
    ensures none { IfNone result ((b : Bool) → SpellsWord word.now (value.Bool b) → ⊥) }
{
    match word {
        b"true" => Some(true),
        b"false" => Some(false),
        _ => None,
    }
}

// A parse also takes a sign and zeros in front, so the word has to be what is written for its number.
fn u64_in(word: &[u8]) -> Option<u64>
    ensures some { IfSome result (λ n. word.now ≡ decimal n) }
    ensures none { IfNone result ((n : ℕ) → n < 2 ^ 64 → word.now ≡ decimal n → ⊥) }
{
    let Ok(text) = str::from_utf8(word) else {
        return None;
    };
    match text.parse::<u64>() {
        Ok(number) => {
            if is_text(word, Buffer::new().format(number)) {
                Some(number)
            } else {
                None
            }
        }
        Err(_) => None,
    }
}

fn is_text(word: &[u8], text: &str) -> bool
    ensures { IsTrue result ↔ (word.now ≡ text.now) }
{
    word == text.as_bytes()
}

#[tactic(auto, using(std::proofs::lemmas::Fmt::decimal_injective))]
fn u32_in(word: &[u8]) -> Option<u32>
    ensures some { IfSome result (λ n. SpellsWord word.now (value.U32 n)) }
    ensures none { IfNone result ((n : ℕ) → SpellsWord word.now (value.U32 n) → ⊥) }
{
    u32::try_from(u64_in(word)?).ok()
}

// As in `u64_in`, with a sign.
fn i64_in(word: &[u8]) -> Option<i64>
    ensures some { IfSome result (λ z. SpellsWord word.now (value.I64 z)) }
    ensures none { IfNone result ((z : ℤ) → SpellsWord word.now (value.I64 z) → ⊥) }
{
    let Ok(text) = str::from_utf8(word) else {
        return None;
    };
    match text.parse::<i64>() {
        Ok(number) => {
            if is_text(word, Buffer::new().format(number)) {
                Some(number)
            } else {
                None
            }
        }
        Err(_) => None,
    }
}

fn i32_in(word: &[u8]) -> Option<i32>
    ensures some { IfSome result (λ z. SpellsWord word.now (value.I32 z)) }
    ensures none { IfNone result ((z : ℤ) → SpellsWord word.now (value.I32 z) → ⊥) }
{
    i32::try_from(i64_in(word)?).ok()
}

fn text_in(alloc: Global, word: &[u8]) -> Result<Bytes, ValueStop>
    ensures ok { IfOk result (λ text. word.now ≡ text) }
    ensures shape { result ≢ Err ValueStop.WrongShape }
{
    Ok(Bytes::copy_of(alloc, word)?)
}

// The bytes that the word tells in hexadecimal.
fn hex_in(alloc: Global, word: &[u8]) -> Result<Bytes, ValueStop>
    ensures ok { IfOk result (λ bytes. decode_of word.now ≡ Ok bytes) }
    ensures shape { IsErrOf result ValueStop.WrongShape → (bytes : List ℕ) → decode_of word.now ≡ Ok bytes → ⊥ }
    ensures memory { IsErrOf result ValueStop.Memory → (bytes : List ℕ) × (decode_of word.now ≡ Ok bytes) }
{
    if word.len() % 2 == 1 || !all_hex(word) {
        return Err(ValueStop::WrongShape);
    }
    match hex::decode(alloc, word) {
        Ok(bytes) => Ok(Bytes::of_vec(bytes)),
        Err(_) => Err(ValueStop::Memory),
    }
}

fn all_hex(word: &[u8]) -> bool
    ensures { IsTrue result ↔ AllPass is_hex_digit word.now }
{
    word.iter().all(|digit| digit.is_ascii_hexdigit())
}

/// Appends the word that stands for the value, hexadecimal in lower case. After `Memory` nothing was appended.
pub fn value_text(value: &Value, out: &mut Vec<u8>) -> Result<(), Memory>
    ensures ok { OnOk result (out.new.items ≡ out.old.items ++ word_of value.now) }
    ensures err { OnErr result (out.new.items ≡ out.old.items) }
{
    match value {
        Value::Bool(true) => append(b"true", out),
        Value::Bool(false) => append(b"false", out),
        Value::I32(number) => append(Buffer::new().format(*number).as_bytes(), out),
        Value::U32(number) => append(Buffer::new().format(*number).as_bytes(), out),
        Value::I64(number) => append(Buffer::new().format(*number).as_bytes(), out),
        Value::U64(number) => append(Buffer::new().format(*number).as_bytes(), out),
        Value::Text(bytes) => append(bytes.as_slice(), out),
        Value::Blob(bytes) | Value::Raw(bytes) => append_hex(bytes.as_slice(), out),
    }
}

fn append(bytes: &[u8], out: &mut Vec<u8>) -> Result<(), Memory>
    ensures ok { OnOk result (out.new.items ≡ out.old.items ++ bytes.now) }
    ensures err { OnErr result (out.new.items ≡ out.old.items) }
{
    out.extend_from_slice(bytes)?;
    Ok(())
}

fn append_hex(bytes: &[u8], out: &mut Vec<u8>) -> Result<(), Memory>
    ensures ok { OnOk result (out.new.items ≡ out.old.items ++ encode_lower bytes.now) }
    ensures err { OnErr result (out.new.items ≡ out.old.items) }
{
    let start = out.len();
    let end = start.checked_add(2 * bytes.len()).ok_or(Memory)?;
    out.resize(end, 0)?;
    hex::encode_to_slice(bytes, &mut out[start..]).map_err(|_| Memory)
}

#[cfg(test)]
mod tests {
    use super::*;
    use crate::decoding::decode;
    use std::test::Fail;

    // The word of what was read, or `none` where the shape is wrong.
    fn shown(alloc: Global, read: Result<Value, ValueStop>) -> Result<Vec<u8>, Fail> {
        let mut out = Vec::new(alloc);
        match read {
            Ok(value) => value_text(&value, &mut out)?,
            Err(ValueStop::WrongShape) => append(b"none", &mut out)?,
            Err(stop) => return Err(stop.into()),
        }
        Ok(out)
    }

    #[test]
    fn a_number_is_read_within_its_kind_alone(rt: HostRuntime) -> Result<(), Fail> {
        let rows: [(Kind, &[u8], &[u8]); 16] = [
            (
                Kind::I32,
                b"\xff\xff\xff\xff\xff\xff\xff\xff\xff\x01",
                b"-1",
            ),
            (
                Kind::I64,
                b"\xff\xff\xff\xff\xff\xff\xff\xff\xff\x01",
                b"-1",
            ),
            (
                Kind::U64,
                b"\xff\xff\xff\xff\xff\xff\xff\xff\xff\x01",
                b"18446744073709551615",
            ),
            (
                Kind::U64,
                b"\xff\xff\xff\xff\xff\xff\xff\xff\xff\x02",
                b"none",
            ),
            (Kind::I32, b"\xff\xff\xff\xff\x07", b"2147483647"),
            (Kind::I32, b"\x80\x80\x80\x80\x08", b"none"),
            (Kind::I32, b"\xff\xff\xff\xff\x0f", b"none"),
            (
                Kind::I32,
                b"\x80\x80\x80\x80\xf8\xff\xff\xff\xff\x01",
                b"-2147483648",
            ),
            (
                Kind::I32,
                b"\xff\xff\xff\xff\xf7\xff\xff\xff\xff\x01",
                b"none",
            ),
            (Kind::U32, b"\xff\xff\xff\xff\x0f", b"4294967295"),
            (Kind::U32, b"\x80\x80\x80\x80\x10", b"none"),
            (
                Kind::I64,
                b"\x80\x80\x80\x80\x80\x80\x80\x80\x80\x01",
                b"-9223372036854775808",
            ),
            (Kind::U32, b"\x81\x80\x00", b"1"),
            (Kind::U32, b"\x01\x00", b"none"),
            (Kind::U32, b"\x81", b"none"),
            (Kind::U32, b"", b"none"),
        ];
        for (kind, bytes, want) in rows {
            assert_eq!(rt;
                shown(rt.alloc(), decode(rt.alloc(), kind, bytes))?.as_slice(),
                want
            );
        }
        Ok(())
    }

    #[test]
    fn flags_and_texts_are_read_whole(rt: HostRuntime) -> Result<(), Fail> {
        let rows: [(Kind, &[u8], &[u8]); 13] = [
            (Kind::Bool, b"\x00", b"false"),
            (Kind::Bool, b"\x01", b"true"),
            (Kind::Bool, b"\x02", b"none"),
            (Kind::Bool, b"\x01\x00", b"none"),
            (
                Kind::Bool,
                b"\xff\xff\xff\xff\xff\xff\xff\xff\xff\x01",
                b"none",
            ),
            (Kind::Text, b"\x00", b""),
            (Kind::Text, b"\x03abc", b"abc"),
            (Kind::Text, b"\x83\x00abc", b"abc"),
            (Kind::Text, b"abc", b"none"),
            (Kind::Text, b"\x03abcd", b"none"),
            (Kind::Blob, b"\x02\x0a\xff", b"0aff"),
            (Kind::Raw, b"\x02\x0a\xff", b"020aff"),
            (Kind::Raw, b"", b"none"),
        ];
        for (kind, bytes, want) in rows {
            assert_eq!(rt;
                shown(rt.alloc(), decode(rt.alloc(), kind, bytes))?.as_slice(),
                want
            );
        }
        Ok(())
    }

    #[test]
    fn a_word_has_no_needless_sign_or_zero(rt: HostRuntime) -> Result<(), Fail> {
        let rows: [(Kind, &[u8], &[u8]); 20] = [
            (Kind::Bool, b"true", b"true"),
            (Kind::Bool, b"True", b"none"),
            (Kind::I32, b"-2147483648", b"-2147483648"),
            (Kind::I32, b"-2147483649", b"none"),
            (Kind::I32, b"-0", b"none"),
            (Kind::I32, b"+1", b"none"),
            (Kind::I32, b"0", b"0"),
            (Kind::U32, b"4294967295", b"4294967295"),
            (Kind::U32, b"4294967296", b"none"),
            (Kind::U32, b"01", b"none"),
            (Kind::U32, b"-1", b"none"),
            (Kind::U32, b"", b"none"),
            (Kind::I64, b"9223372036854775808", b"none"),
            (Kind::U64, b"18446744073709551615", b"18446744073709551615"),
            (Kind::U64, b"18446744073709551616", b"none"),
            (Kind::Text, b"-1 \xff", b"-1 \xff"),
            (Kind::Blob, b"0aFf", b"0aff"),
            (Kind::Blob, b"0a0", b"none"),
            (Kind::Raw, b"", b""),
            (Kind::Raw, b"0g", b"none"),
        ];
        for (kind, word, want) in rows {
            assert_eq!(rt;
                shown(rt.alloc(), read_word(rt.alloc(), kind, word))?.as_slice(),
                want
            );
        }
        Ok(())
    }
}
