// Which calls are begun.
ghost use Rattle.std.specs.Prelude.{◌≡◌};
ghost use Rattle.region_words.specs.Rows.{AreBytes};
ghost use Rattle.opener.specs.Begins.{HasBytes, call_refusal, key_refusal, pair_refusal};

use crate::calls::Refused;
use change_log::Call;
use kv_pairs::LONGEST_FIELD;
use lock_rules::MOST_HOLDS;

/// Why a call is refused for what it is asked, beside so many holds.
pub fn refusal(call: &Call, holds: u32) -> Option<Refused>
    ensures why { result ≡ call_refusal call.now holds }
    ensures bytes { HasBytes call.now }
{
    match call {
        Call::Get { key } | Call::Remove { key } => key_refusal(key.as_slice()),
        Call::Put { key, value, .. } => pair_refusal(key.as_slice(), value.as_slice()),
        Call::Release if holds == 0 => Some(Refused::NotHeld),
        Call::Hold if holds >= MOST_HOLDS => Some(Refused::TooDeep),
        _ => None,
    }
}

fn key_refusal(key: &[u8]) -> Option<Refused>
    ensures why { result ≡ key_refusal key.now }
    ensures bytes { AreBytes key.now }
{
    if key.is_empty() {
        Some(Refused::EmptyKey)
    } else if key.len() > LONGEST_FIELD {
        Some(Refused::TooLong)
    } else {
        None
    }
}

fn pair_refusal(key: &[u8], value: &[u8]) -> Option<Refused>
    ensures why { result ≡ pair_refusal key.now value.now }
    ensures bytes { AreBytes key.now × AreBytes value.now }
{
    if key.is_empty() {
        Some(Refused::EmptyKey)
    } else if value.is_empty() {
        Some(Refused::EmptyValue)
    } else if key.len() > LONGEST_FIELD || value.len() > LONGEST_FIELD {
        Some(Refused::TooLong)
    } else {
        None
    }
}
