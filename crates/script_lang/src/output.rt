// Writing a text to its end.
ghost use Rattle.std.specs.Prelude.{◌≡◌, ◌++◌, ◌<◌, ◌≤◌, OnOk, OnErr, take, length};
ghost use Rattle.region_words.specs.Outside.{Rose};
ghost use Rattle.script_lang.specs.Written.{Wrote, WroteFront};

use region_words::Sink;
use thiserror::Error;

/// The sink had a fault, which its count says too.
#[derive(Clone, Copy, Debug, PartialEq, Eq, Error)]
#[error("a fault of the output")]
pub struct WriteFault;

/// Writes a text piece by piece to its end. After a fault a front of it is written.
pub fn write_all<K: Sink>(sink: &mut K, text: &[u8]) -> Result<(), WriteFault>
    ensures ok { OnOk result (Wrote (K.written sink.old) (K.written sink.new) text.now (length text.now)) }
    ensures front { WroteFront (K.written sink.old) (K.written sink.new) text.now }
    ensures steady { OnOk result (K.faults sink.new ≡ K.faults sink.old) }
    ensures fault { OnErr result (Rose (K.faults sink.old) (K.faults sink.new)) }
{
    let mut written = 0;
    while written < text.len() {
        match sink.write(&text[written..]) {
            Ok(0) | Err(_) => return Err(WriteFault),
            Ok(n) => written += n,
        }
    }
    Ok(())
}
