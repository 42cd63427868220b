// Answers and other outcomes as they are printed.
ghost use Rattle.std.specs.Prelude.{◌≡◌, ◌++◌, OnOk, OnErr, IfOk, string_bytes};
ghost use Rattle.script_lang.specs.Texts as text;

use crate::outcome::{Outcome, Reason};
use crate::words::{hex_word, put_text};
use change_log::{Answer, Call, Reply};
use expiring_map::{Bytes, Memory};
use meta_record::Damage;
use std::alloc::{AllocError, Global};

fn call_text(alloc: Global, call: &Call) -> Result<String, AllocError>
    ensures { IfOk result (λ t. string_bytes t ≡ text.call_text call.now) }
{
    match call {
        Call::Get { key } => format!(in alloc; "get {}", hex_word(alloc, key.as_slice())?),
        Call::Put {
            key,
            value,
            seconds,
        } => put_text(alloc, key.as_slice(), value.as_slice(), *seconds),
        Call::Remove { key } => format!(in alloc; "remove {}", hex_word(alloc, key.as_slice())?),
        Call::Clear => "clear".to_string(alloc),
        Call::Keys => "keys".to_string(alloc),
        Call::Count => "count".to_string(alloc),
        Call::Enable { seconds } => format!(in alloc; "enable {seconds}"),
        Call::Disable => "disable".to_string(alloc),
        Call::Hold => "hold".to_string(alloc),
        Call::Release => "release".to_string(alloc),
        Call::Sync => "sync".to_string(alloc),
    }
}

fn further_key(alloc: Global, key: &Bytes) -> Result<String, AllocError>
    ensures { IfOk result (λ t. string_bytes t ≡ text.further_key key.now) }
{
    format!(in alloc; " {}", hex_word(alloc, key.as_slice())?)
}

fn keys_text(alloc: Global, keys: &[Bytes]) -> Result<String, AllocError>
    ensures { IfOk result (λ t. string_bytes t ≡ text.reply_text (Reply.Keys keys.now)) }
{
    let mut text = format!(in alloc; "keys {}", keys.len())?;
    for key in keys {
        text.push_str(further_key(alloc, key)?.as_str())?;
    }
    Ok(text)
}

fn reply_text(alloc: Global, reply: &Reply) -> Result<String, AllocError>
    ensures { IfOk result (λ t. string_bytes t ≡ text.reply_text reply.now) }
{
    match reply {
        Reply::None => "none".to_string(alloc),
        Reply::Value(value) => format!(in alloc; "value {}", hex_word(alloc, value.as_slice())?),
        Reply::Keys(keys) => keys_text(alloc, keys.as_slice()),
        Reply::Count(n) => format!(in alloc; "count {n}"),
        Reply::Done => "done".to_string(alloc),
    }
}

fn counts_text(alloc: Global, answer: &Answer) -> Result<String, AllocError>
    ensures { IfOk result (λ t. string_bytes t ≡ text.counts_text answer.entry.now) }
{
    format!(in alloc;
        "begun {} place {} ended {} loads {} stores {} locks {}",
        answer.begun, answer.place, answer.ended, answer.loads, answer.stores, answer.locks
    )
}

fn answer_line(alloc: Global, answer: &Answer) -> Result<String, AllocError>
    ensures { IfOk result (λ t. string_bytes t ≡ text.answer_line answer.entry.now) }
{
    let call = call_text(alloc, &answer.call)?;
    let counts = counts_text(alloc, answer)?;
    let reply = reply_text(alloc, &answer.reply)?;
    format!(in alloc;
        "answer {} {call} now {} {counts} reply {reply}\n",
        answer.who, answer.now
    )
}

/// Appends the line of an answer. After `Memory` `out` is as before.
pub fn answer_text(alloc: Global, answer: &Answer, out: &mut Vec<u8>) -> Result<(), Memory>
    ensures ok { OnOk result (out.new.items ≡ out.old.items ++ text.answer_line answer.entry.now) }
    ensures memory { OnErr result (out.new.items ≡ out.old.items) }
{
    let line = answer_line(alloc, answer)?;
    out.extend_from_slice(line.as_bytes())?;
    Ok(())
}

/// How a region is damaged, in words.
pub fn damage_text(damage: Damage) -> &'static str
    ensures { result.now ≡ text.damage_text damage }
{
    match damage {
        Damage::Length => "damaged length",
        Damage::Checksum => "damaged checksum",
        Damage::Content => "damaged content",
    }
}

fn reason_text(alloc: Global, reason: Reason) -> Result<String, AllocError>
    ensures { IfOk result (λ t. string_bytes t ≡ text.reason_text reason) }
{
    match reason {
        Reason::Damaged(damage) => damage_text(damage).to_string(alloc),
        Reason::Full { need } => format!(in alloc; "full {need} 67108864"),
        Reason::SequenceEnd => "sequence-end".to_string(alloc),
        Reason::ExpiryOff => "expiry-off".to_string(alloc),
        Reason::ExpiryRange => "expiry-range".to_string(alloc),
        Reason::AlreadyOn => "already-on".to_string(alloc),
        Reason::AlreadyOff => "already-off".to_string(alloc),
    }
}

fn outcome_line(alloc: Global, outcome: &Outcome) -> Result<String, AllocError>
    ensures { IfOk result (λ t. string_bytes t ≡ text.outcome_line outcome.now) }
{
    match outcome {
        Outcome::Answered(answer) => answer_line(alloc, answer),
        Outcome::Blocked { who, holder } => format!(in alloc; "blocked {who} by {holder}\n"),
        Outcome::Stopped { who, reason } => format!(in alloc;
            "stopped {who} {}\n",
            reason_text(alloc, *reason)?
        ),
    }
}

/// Appends the line of an outcome. After `Memory` `out` is as before.
pub fn outcome_text(alloc: Global, outcome: &Outcome, out: &mut Vec<u8>) -> Result<(), Memory>
    ensures ok { OnOk result (out.new.items ≡ out.old.items ++ text.outcome_line outcome.now) }
    ensures memory { OnErr result (out.new.items ≡ out.old.items) }
{
    let line = outcome_line(alloc, outcome)?;
    out.extend_from_slice(line.as_bytes())?;
    Ok(())
}
