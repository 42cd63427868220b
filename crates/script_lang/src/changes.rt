// Changes as they are printed.
ghost use Rattle.std.specs.Prelude.{◌≡◌, ◌++◌, ℕ, OnOk, OnErr, IfOk, string_bytes, length};
ghost use Rattle.script_lang.specs.Texts as text;
ghost use Rattle.script_lang.specs.Written.{BeginsWith};

use crate::words::{hex_word, put_text};
use change_log::{Act, Change};
use expiring_map::Memory;
use std::alloc::{AllocError, Global};

fn act_text(alloc: Global, act: &Act) -> Result<String, AllocError>
    ensures { IfOk result (λ t. string_bytes t ≡ text.act_text act.now) }
{
    match act {
        Act::Put { key, value, expiry } => put_text(
            alloc,
            key.as_slice(),
            value.as_slice(),
            *expiry,
        ),
        Act::Remove { key } => {
            let key = hex_word(alloc, key.as_slice())?;
            format!(in alloc; "remove {key}")
        }
        Act::Clear => "clear".to_string(alloc),
        Act::Pack { now } => format!(in alloc; "pack {now}"),
        Act::Enable { now, seconds } => format!(in alloc; "enable {now} {seconds}"),
        Act::Disable { now } => format!(in alloc; "disable {now}"),
        Act::Restored { pairs } => format!(in alloc; "restored {}", pairs.as_slice().len()),
        Act::Discarded => "discarded".to_string(alloc),
        Act::Recovered { pairs } => format!(in alloc; "recovered {}", pairs.as_slice().len()),
    }
}

fn change_line(alloc: Global, number: usize, change: &Change) -> Result<String, AllocError>
    ensures { IfOk result (λ t. string_bytes t ≡ text.change_line (number, change.now)) }
{
    let Change { maker, act } = change;
    let act = act_text(alloc, act)?;
    format!(in alloc; "change {number} {maker} {act}\n")
}

// After `Memory` a front of the text may stand.
fn push_changes(alloc: Global, changes: &[Change], out: &mut Vec<u8>) -> Result<(), Memory>
    ensures ok { OnOk result (out.new.items ≡ out.old.items ++ text.changes_text changes.now) }
    ensures memory { OnErr result (BeginsWith out.new.items out.old.items) }
{
    let head = format!(in alloc; "changes {}\n", changes.len())?;
    out.extend_from_slice(head.as_bytes())?;
    for (number, change) in changes.iter().enumerate() {
        let line = change_line(alloc, number, change)?;
        out.extend_from_slice(line.as_bytes())?;
    }
    Ok(())
}

/// Appends the changes, each with its number. After `Memory` `out` is as before.
pub fn changes_text(alloc: Global, changes: &[Change], out: &mut Vec<u8>) -> Result<(), Memory>
    ensures ok { OnOk result (out.new.items ≡ out.old.items ++ text.changes_text changes.now) }
    ensures memory { OnErr result (out.new.items ≡ out.old.items) }
{
    let before = out.len();
    let pushed = push_changes(alloc, changes, out);
    if pushed.is_err() {
        out.truncate(before);
    }
    pushed
}
