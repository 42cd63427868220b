// The item of a change that is appended.
ghost use Rattle.std.specs.Prelude.{◌≡◌, ◌++◌, OnOk};
ghost use Rattle.region_words.specs.Rows.{item_of, IsAppendable};

use change_log::Act;
use expiring_map::Memory;
use kv_pairs::append_item;

/// Puts the item of a put or remove behind these bytes.
pub fn push_item(flag: bool, act: &Act, out: &mut Vec<u8>) -> Result<(), Memory>
    requires { IsAppendable flag act.now }
    ensures { OnOk result (out.new.items ≡ out.old.items ++ item_of flag act.now) }
{
    match act {
        Act::Put { key, value, expiry } => {
            append_item(flag, key.as_slice(), value.as_slice(), *expiry, out)
        }
        Act::Remove { key } => append_item(flag, key.as_slice(), b"", 0, out),
        _ => Ok(()),
    }
}
