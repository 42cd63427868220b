// What a call is answered that finds a map.
ghost use Rattle.std.specs.Prelude.{◌≡◌, IfOk};
ghost use Rattle.change_log.specs.History.{reply_in};

use change_log::{Call, Reply};
use expiring_map::{Bytes, ExpiringMap, Memory};
use std::alloc::Global;

/// The reply to a call that finds this map at a moment.
pub(crate) fn reply_in(
    alloc: Global,
    map: &ExpiringMap,
    now: u32,
    call: &Call,
) -> Result<Reply, Memory>
    ensures { IfOk result (λ reply. reply ≡ reply_in map.now now call.now) }
{
    match call {
        Call::Get { key } => match map.value_at(key.as_slice(), now) {
            Some(value) => Ok(Reply::Value(Bytes::copy_of(alloc, value)?)),
            None => Ok(Reply::None),
        },
        Call::Keys => Ok(Reply::Keys(map.keys_at(now)?)),
        Call::Count => Ok(Reply::Count(map.count_at(now))),
        _ => Ok(Reply::Done),
    }
}
