// The words of a script that stand for calls.
ghost use Rattle.std.specs.Prelude.{◌≡◌, ◌≢◌, ◌+◌, ◌<◌, ◌^◌, IfOk, IfSome, MatchOption, length, List, [], ◌∷◌, ℕ, codes};
ghost use Rattle.script_lang.specs.Lines.{IsCall};
ghost use Rattle.script_lang.specs.Splitting.{Reads, words_of, IsEncoded, IsTimedCall};

use crate::value_words::{bytes, kind, number, value};
use change_log::Call;
use expiring_map::{Bytes, Memory};
use std::alloc::Global;
use wire_values::encode;

/// The first word and what is behind its space, none where the text is one word.
pub fn cut(text: &str) -> Option<(&str, &str)>
    ensures words { MatchOption result (words_of text.now ≡ text.now ∷ []) (λ parts. words_of text.now ≡ parts.0.now ∷ words_of parts.1.now) }
    ensures within { IfSome result (λ parts. length parts.0.now + length parts.1.now < length text.now) }
{
    text.split_once(' ')
}

fn bare_call(name: &str) -> Option<Call>
    ensures { Reads (IsCall (name.now ∷ [])) result }
{
    match name {
        "clear" => Some(Call::Clear),
        "keys" => Some(Call::Keys),
        "count" => Some(Call::Count),
        "disable" => Some(Call::Disable),
        "hold" => Some(Call::Hold),
        "release" => Some(Call::Release),
        "sync" => Some(Call::Sync),
        _ => None,
    }
}

fn call_with(alloc: Global, name: &str, word: &str) -> Result<Option<Call>, Memory>
    ensures { IfOk result (Reads (IsCall (name.now ∷ word.now ∷ []))) }
{
    match name {
        "get" => match bytes(alloc, word)? {
            Some(key) => Ok(Some(Call::Get { key })),
            None => Ok(None),
        },
        "remove" => match bytes(alloc, word)? {
            Some(key) => Ok(Some(Call::Remove { key })),
            None => Ok(None),
        },
        "enable" => Ok(number(word).map(|seconds| Call::Enable { seconds })),
        _ => Ok(None),
    }
}

// The bytes of a value, whose kind is named.
fn encoded(alloc: Global, named: &str, word: &str) -> Result<Option<Bytes>, Memory>
    requires { length word.now < 2 ^ 31 }
    ensures { IfOk result (Reads (IsEncoded named.now word.now)) }
{
    let Some(kind) = kind(named) else {
        return Ok(None);
    };
    match value(alloc, kind, word)? {
        Some(value) => Ok(Some(encode(alloc, &value)?)),
        None => Ok(None),
    }
}

// The words of a put behind its name.
#[derive(Clone, Copy)]
struct PutWords<'a> {
    key: &'a str,
    kind: &'a str,
    value: &'a str,
    seconds: &'a str,
}

fn put_words(text: &str) -> Option<PutWords<'_>>
    ensures words { MatchOption result ((a b c d : List ℕ) → words_of text.now ≢ a ∷ b ∷ c ∷ d ∷ []) (λ put. words_of text.now ≡ put.key.now ∷ put.kind.now ∷ put.value.now ∷ put.seconds.now ∷ []) }
    ensures within { IfSome result (λ put. length put.value.now < length text.now) }
{
    let (key, rest) = cut(text)?;
    let (kind, rest) = cut(rest)?;
    let (value, seconds) = cut(rest)?;
    match cut(seconds) {
        Some(_) => None,
        None => Some(PutWords {
            key,
            kind,
            value,
            seconds,
        }),
    }
}

// A put, of the words behind its name.
fn put(alloc: Global, text: &str) -> Result<Option<Call>, Memory>
    requires { length text.now < 2 ^ 31 }
    ensures { IfOk result (Reads (IsCall (codes "put" ∷ words_of text.now))) }
{
    let Some(words) = put_words(text) else {
        return Ok(None);
    };
    let Some(seconds) = number(words.seconds) else {
        return Ok(None);
    };
    let Some(value) = encoded(alloc, words.kind, words.value)? else {
        return Ok(None);
    };
    match bytes(alloc, words.key)? {
        Some(key) => Ok(Some(Call::Put {
            key,
            value,
            seconds,
        })),
        None => Ok(None),
    }
}

/// The call that a text spells.
fn call(alloc: Global, text: &str) -> Result<Option<Call>, Memory>
    requires { length text.now < 2 ^ 31 }
    ensures { IfOk result (Reads (IsCall (words_of text.now))) }
{
    let Some((name, rest)) = cut(text) else {
        return Ok(bare_call(text));
    };
    match name {
        "put" => put(alloc, rest),
        _ => match cut(rest) {
            None => call_with(alloc, name, rest),
            Some(_) => Ok(None),
        },
    }
}

/// The number of an opener, a moment and a call.
pub fn timed_call(alloc: Global, text: &str) -> Result<Option<(u32, u32, Call)>, Memory>
    requires { length text.now < 2 ^ 31 }
    ensures { IfOk result (Reads (IsTimedCall (words_of text.now))) }
{
    let Some((who_word, rest)) = cut(text) else {
        return Ok(None);
    };
    let Some((now_word, call_words)) = cut(rest) else {
        return Ok(None);
    };
    let Some(who) = number(who_word) else {
        return Ok(None);
    };
    let Some(now) = number(now_word) else {
        return Ok(None);
    };
    match call(alloc, call_words)? {
        Some(call) => Ok(Some((who, now, call))),
        None => Ok(None),
    }
}
