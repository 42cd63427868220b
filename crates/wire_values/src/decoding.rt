// The value that some bytes spell.
ghost use Rattle.std.specs.Prelude.{◌≡◌, ◌≢◌, ℕ, List, [], ℤ, Bool, IfOk, IfSome, IfNone, IsErrOf};
ghost use Rattle.wire_values.specs.Values.{kind_of, SpellsValue, SpellsNone, SpellsSome, IsText};
ghost use Rattle.wire_values.specs.declared.value.Value.TheVariants as value;

use crate::number::read_number;
use crate::value::{Kind, Value};
use expiring_map::{Bytes, Memory};
use kv_pairs::read_length;
use std::alloc::Global;
use thiserror::Error;

/// Why no value was read.
#[derive(Clone, Copy, Debug, PartialEq, Eq, Error)]
pub enum ValueStop {
    #[error("no value of this kind is spelled so")]
    WrongShape,
    #[error("out of memory")]
    Memory,
}

impl From<Memory> for ValueStop {
    ghost use Rattle.std.specs.Prelude.{◌≡◌};
    ghost use Rattle.wire_values.specs.declared.decoding.ValueStop.TheVariants.{Memory};

    ghost from_gives = { λ _ e. e ≡ Memory };

    fn from(_: Memory) -> Self {
        ValueStop::Memory
    }
}

/// The value of this kind that the bytes spell. A number may be spelled in more bytes than it needs.
pub fn decode(alloc: Global, kind: Kind, bytes: &[u8]) -> Result<Value, ValueStop>
    ensures kind { IfOk result (λ v. kind_of v ≡ kind) }
    ensures ok { IfOk result (λ v. SpellsValue bytes.now v) }
    ensures shape { IsErrOf result ValueStop.WrongShape → SpellsNone bytes.now kind }
    ensures memory { IsErrOf result ValueStop.Memory → SpellsSome bytes.now kind }
{
    match kind {
        Kind::Bool => bool_in(bytes).map(Value::Bool).ok_or(ValueStop::WrongShape),
        Kind::I32 => i32_in(bytes).map(Value::I32).ok_or(ValueStop::WrongShape),
        Kind::U32 => u32_in(bytes).map(Value::U32).ok_or(ValueStop::WrongShape),
        Kind::I64 => i64_in(bytes).map(Value::I64).ok_or(ValueStop::WrongShape),
        Kind::U64 => read_number(bytes)
            .map(Value::U64)
            .ok_or(ValueStop::WrongShape),
        Kind::Text => text_of(alloc, bytes).map(Value::Text),
        Kind::Blob => text_of(alloc, bytes).map(Value::Blob),
        Kind::Raw => raw_of(alloc, bytes).map(Value::Raw),
    }
}

fn bool_in(bytes: &[u8]) -> Option<bool>
    ensures some { IfSome result (λ b. SpellsValue bytes.now (value.Bool b)) }
    ensures none { IfNone result ((b : Bool) → SpellsValue bytes.now (value.Bool b) → ⊥) }
{
    match bytes {
        [0] => Some(false),
        [1] => Some(true),
        _ => None,
    }
}

fn i64_in(bytes: &[u8]) -> Option<i64>
    ensures some { IfSome result (λ z. SpellsValue bytes.now (value.I64 z)) }
    ensures none { IfNone result ((z : ℤ) → SpellsValue bytes.now (value.I64 z) → ⊥) }
{
    read_number(bytes).map(u64::cast_signed)
}

fn i32_in(bytes: &[u8]) -> Option<i32>
    ensures some { IfSome result (λ z. SpellsValue bytes.now (value.I32 z)) }
    ensures none { IfNone result ((z : ℤ) → SpellsValue bytes.now (value.I32 z) → ⊥) }
{
    i32::try_from(i64_in(bytes)?).ok()
}

fn u32_in(bytes: &[u8]) -> Option<u32>
    ensures some { IfSome result (λ n. SpellsValue bytes.now (value.U32 n)) }
    ensures none { IfNone result ((n : ℕ) → SpellsValue bytes.now (value.U32 n) → ⊥) }
{
    u32::try_from(read_number(bytes)?).ok()
}

// The bytes of a text, in memory of their own.
fn text_of(alloc: Global, bytes: &[u8]) -> Result<Bytes, ValueStop>
    ensures ok { IfOk result (IsText bytes.now) }
    ensures shape { IsErrOf result ValueStop.WrongShape → (text : List ℕ) → IsText bytes.now text → ⊥ }
    ensures memory { IsErrOf result ValueStop.Memory → (text : List ℕ) × IsText bytes.now text }
{
    match text_in(bytes) {
        Some(text) => Ok(Bytes::copy_of(alloc, text)?),
        None => Err(ValueStop::WrongShape),
    }
}

// The bytes behind a length, where it is theirs.
fn text_in(bytes: &[u8]) -> Option<&[u8]>
    ensures some { IfSome result (λ text. IsText bytes.now text.now) }
    ensures none { IfNone result ((text : List ℕ) → IsText bytes.now text → ⊥) }
{
    let Ok((size, after)) = read_length(bytes) else {
        return None;
    };
    let text = &bytes[after..];
    if text.len() == size as usize {
        Some(text)
    } else {
        None
    }
}

fn raw_of(alloc: Global, bytes: &[u8]) -> Result<Bytes, ValueStop>
    ensures ok { IfOk result (λ raw. SpellsValue bytes.now (value.Raw raw)) }
    ensures shape { IsErrOf result ValueStop.WrongShape → bytes.now ≡ [] }
    ensures memory { IsErrOf result ValueStop.Memory → bytes.now ≢ [] }
{
    if bytes.is_empty() {
        return Err(ValueStop::WrongShape);
    }
    Ok(Bytes::copy_of(alloc, bytes)?)
}
