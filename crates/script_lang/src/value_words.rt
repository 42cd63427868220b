// The words of a script that stand for numbers, bytes and values.
ghost use Rattle.std.specs.Prelude.{◌≡◌, ◌≤◌, ◌<◌, ◌^◌, ◌↔◌, ◌≢◌, IfOk, IfSome, IsTrue, length, FitsSigned, ℕ, slice_index};
ghost use Rattle.std.specs.Fmt.{signed_decimal};
ghost use Rattle.std.specs.Int.{w32, w64};
ghost use Rattle.std.specs.Prelude.{decimal};
ghost use Rattle.wire_values.specs.Values.{HasLength};
ghost use Rattle.script_lang.specs.Lines.{IsNumber, IsHex, IsBits, IsValueWord, kind_word};
ghost use Rattle.script_lang.specs.Splitting.{Reads, IsValueOf, IsPlain, IsPlainSigned};

use expiring_map::{Bytes, Memory};
use hex::{FromHex, FromHexError};
use std::alloc::Global;
use wire_values::{Kind, Value};

// No sign begins the word, and no zero but where it is the whole word.
fn is_plain(word: &[u8]) -> bool
    ensures { IsTrue result ↔ IsPlain word.now }
{
    match word.first() {
        None => true,
        Some(first) => *first != b'+' && *first != b'-' && (*first != b'0' || word.len() == 1),
    }
}

fn is_plain_signed(word: &[u8]) -> bool
    ensures { IsTrue result ↔ IsPlainSigned word.now }
{
    if word.first() == Some(&b'-') {
        is_plain(&word[1..]) && word.get(1) != Some(&b'0')
    } else {
        is_plain(word)
    }
}

pub fn number(word: &str) -> Option<u32>
    ensures { Reads (IsNumber word.now) result }
{
    if is_plain(word.as_bytes()) {
        word.parse::<u32>().ok()
    } else {
        None
    }
}

fn long_number(word: &str) -> Option<u64>
    ensures { Reads (λ n. (word.now ≡ decimal n) × (n < 2 ^ 64)) result }
{
    if is_plain(word.as_bytes()) {
        word.parse::<u64>().ok()
    } else {
        None
    }
}

fn signed_number(word: &str) -> Option<i32>
    ensures { Reads (λ z. (word.now ≡ signed_decimal z) × FitsSigned w32 z) result }
{
    if is_plain_signed(word.as_bytes()) {
        word.parse::<i32>().ok()
    } else {
        None
    }
}

fn long_signed_number(word: &str) -> Option<i64>
    ensures { Reads (λ z. (word.now ≡ signed_decimal z) × FitsSigned w64 z) result }
{
    if is_plain_signed(word.as_bytes()) {
        word.parse::<i64>().ok()
    } else {
        None
    }
}

/// Bytes in hexadecimal digits of either case, a dash for none.
pub fn bytes(alloc: Global, word: &str) -> Result<Option<Bytes>, Memory>
    ensures ok { IfOk result (Reads (IsHex word.now)) }
    ensures within { IfOk result (λ found. IfSome found (λ bytes. length bytes ≤ length word.now)) }
{
    if word == "-" {
        return Ok(Some(Bytes::of_vec(Vec::new(alloc))));
    }
    if word.is_empty() {
        return Ok(None);
    }
    match hex::decode(alloc, word) {
        Ok(bytes) => Ok(Some(Bytes::of_vec(bytes))),
        Err(FromHexError::OutOfMemory) => Err(Memory),
        Err(_) => Ok(None),
    }
}

/// The bits that a torn word is left with.
pub fn bits(word: &str) -> Option<u32>
    ensures { Reads (IsBits word.now) result }
{
    match <[u8; 4]>::from_hex(word) {
        Ok(bytes) => Some(u32::from_be_bytes(bytes)),
        Err(_) => None,
    }
}

pub fn kind(word: &str) -> Option<Kind>
    ensures { Reads (λ kind. word.now ≡ kind_word kind) result }
{
    match word {
        "bool" => Some(Kind::Bool),
        "i32" => Some(Kind::I32),
        "u32" => Some(Kind::U32),
        "i64" => Some(Kind::I64),
        "u64" => Some(Kind::U64),
        "text" => Some(Kind::Text),
        "blob" => Some(Kind::Blob),
        "raw" => Some(Kind::Raw),
        _ => None,
    }
}

fn flag(word: &str) -> Option<Value>
    ensures { Reads (IsValueOf Kind.Bool word.now) result }
{
    match word {
        "true" => Some(Value::Bool(true)),
        "false" => Some(Value::Bool(false)),
        _ => None,
    }
}

/// A value of this kind.
pub fn value(alloc: Global, kind: Kind, word: &str) -> Result<Option<Value>, Memory>
    requires { length word.now < 2 ^ 31 }
    ensures ok { IfOk result (Reads (IsValueOf kind word.now)) }
    ensures within { IfOk result (λ found. IfSome found HasLength) }
{
    match kind {
        Kind::Bool => Ok(flag(word)),
        Kind::I32 => Ok(signed_number(word).map(|n| Value::I32(n))),
        Kind::U32 => Ok(number(word).map(|n| Value::U32(n))),
        Kind::I64 => Ok(long_signed_number(word).map(|n| Value::I64(n))),
        Kind::U64 => Ok(long_number(word).map(|n| Value::U64(n))),
        Kind::Text => match bytes(alloc, word)? {
            Some(bytes) => Ok(Some(Value::Text(bytes))),
            None => Ok(None),
        },
        Kind::Blob => match bytes(alloc, word)? {
            Some(bytes) => Ok(Some(Value::Blob(bytes))),
            None => Ok(None),
        },
        Kind::Raw => match bytes(alloc, word)? {
            Some(bytes) => Ok(Some(Value::Raw(bytes))),
            None => Ok(None),
        },
    }
}
