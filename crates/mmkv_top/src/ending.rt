// How a run ends: with a status, and a text that it writes.
ghost use Rattle.std.specs.Prelude.{◌≡◌, ◌≢◌};
ghost use Rattle.region_words.specs.Outside.{Rose};
ghost use Rattle.mmkv_top.specs.Ending.{ending, IsDelivered};

use expiring_map::{Bytes, Memory};
use region_words::Sink;
use script_lang::write_all;
use std::alloc::Global;

/// The exit status of a program.
#[derive(Clone, Copy, Debug, PartialEq, Eq)]
pub struct Status(pub u8);

/// A status, and the text that goes with it.
#[derive(Drop)]
pub struct Ending {
    pub(crate) status: u8,
    pub(crate) text: Bytes,
}

impl Ending {
    ghost use Rattle.std.specs.Prelude.{◌≡◌, IfOk, [], string_bytes};
    ghost use Rattle.mmkv_top.specs.Ending.{ending};

    /// A text that is known beforehand.
    pub(crate) fn of_text(alloc: Global, status: u8, text: &str) -> Result<Ending, Memory>
        ensures { IfOk result (λ e. e ≡ ending status text.now) }
    {
        Ok(Ending {
            status,
            text: Bytes::copy_of(alloc, text.as_bytes())?,
        })
    }

    pub(crate) fn of_string(status: u8, text: String) -> Ending
        ensures { result ≡ ending status (string_bytes text) }
    {
        Ending {
            status,
            text: Bytes::of_vec(text.into_bytes()),
        }
    }

    /// Memory was refused; nothing is written.
    pub(crate) fn no_memory(alloc: Global) -> Ending
        ensures { result ≡ ending 8 [] }
    {
        Ending {
            status: 8,
            text: Bytes::of_vec(Vec::new(alloc)),
        }
    }
}

/// Writes the text and answers the status, or 4 where the sink fails.
pub(crate) fn deliver<K: Sink>(ending: &Ending, out: &mut K) -> Status
    ensures status { result.0 ≢ 4 → result.0 ≡ ending.now.status }
    ensures clean { result.0 ≢ 4 → K.faults out.new ≡ K.faults out.old }
    ensures delivered { IsDelivered (K.written out.old) (K.written out.new) (Rose (K.faults out.old) (K.faults out.new)) result ending.now }
{
    match write_all(out, ending.text.as_slice()) {
        Ok(()) => Status(ending.status),
        Err(_) => Status(4),
    }
}
