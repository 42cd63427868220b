// Bytes as they are printed.
ghost use Rattle.std.specs.Prelude.{◌≡◌, [], ◌∷◌, IfOk, string_bytes, codes, decimal};
ghost use Rattle.script_lang.specs.Texts.{hex, hex_number, spaced};

use std::alloc::{AllocError, Global};

/// Bytes as hexadecimal digits in lower case, a dash for none.
pub fn hex_word(alloc: Global, bytes: &[u8]) -> Result<String, AllocError>
    ensures { IfOk result (λ text. string_bytes text ≡ hex bytes.now) }
{
    if bytes.is_empty() {
        "-".to_string(alloc)
    } else {
        hex::encode(alloc, bytes)
    }
}

/// A put in words; the number is its expiry or its seconds.
pub fn put_text(alloc: Global, key: &[u8], value: &[u8], number: u32) -> Result<String, AllocError>
    ensures { IfOk result (λ text.
        string_bytes text ≡ spaced (codes "put" ∷ hex key.now ∷ hex value.now ∷ decimal number ∷ [])) }
{
    let key = hex_word(alloc, key)?;
    let value = hex_word(alloc, value)?;
    format!(in alloc; "put {key} {value} {number}")
}

/// A checksum as eight hexadecimal digits.
#[tactic(auto, unfolding(crate::specs::Texts::hex_number))]
pub fn checksum_word(alloc: Global, checksum: u32) -> Result<String, AllocError>
    ensures { IfOk result (λ text. string_bytes text ≡ hex_number checksum) }
{
    hex::encode(alloc, checksum.to_be_bytes().as_slice())
}
