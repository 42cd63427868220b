// Reading a script to the end of its input.
ghost use Rattle.std.specs.Prelude.{◌≡◌, ◌≢◌, ◌++◌, ◌≤◌, length, IfOk, IfErr, OnOk, IsErrOf, Err};
ghost use Rattle.region_words.specs.Outside.{Rose};
ghost use Rattle.script_lang.specs.Script.{IsWholeInput, IsCutInput, IfTooLong};

use expiring_map::Bytes;
use region_words::Source;
use std::alloc::Global;
use thiserror::Error;

/// The greatest length of a script, in bytes.
pub const LARGEST_SCRIPT: usize = 67_108_864;

const PIECE: usize = 4096;

/// Why a script was not read to its end.
#[derive(Debug, Drop, Error)]
pub enum ScriptStop {
    /// The source had a fault, which its count says too.
    #[error("a fault of the input")]
    ReadFault,
    /// There is a further byte behind these, which are as many as a script may have.
    #[error("a script of more than 67108864 bytes")]
    TooLong(Bytes),
    /// Memory was refused.
    #[error("out of memory")]
    Memory,
}

/// All bytes to the end of the input, but none behind the first byte too many.
pub fn read_script<S: Source>(alloc: Global, source: &mut S) -> Result<Vec<u8>, ScriptStop>
    ensures ok { IfOk result (λ script. IsWholeInput (S.left source.old) (S.left source.new) script.items) }
    ensures most { IfOk result (λ script. length script.items ≤ LARGEST_SCRIPT) }
    ensures long { IfErr result (IfTooLong (λ front. IsCutInput (S.left source.old) front)) }
    ensures cut { IfErr result (IfTooLong (λ front. length front ≡ LARGEST_SCRIPT)) }
    ensures fault { IsErrOf result ScriptStop.ReadFault → Rose (S.faults source.old) (S.faults source.new) }
    ensures steady { result ≢ Err ScriptStop.ReadFault → S.faults source.new ≡ S.faults source.old }
    ensures never_falls { S.faults source.old ≤ S.faults source.new }
{
    let mut script = Vec::new(alloc);
    let mut piece = [0u8; PIECE];
    while script.len() <= LARGEST_SCRIPT {
        let most = PIECE.min(LARGEST_SCRIPT + 1 - script.len());
        match source.read(&mut piece[..most]) {
            Ok(0) => return Ok(script),
            Ok(n) => push(&mut script, &piece[..n])?,
            Err(_) => return Err(ScriptStop::ReadFault),
        }
    }
    script.truncate(LARGEST_SCRIPT);
    Err(ScriptStop::TooLong(Bytes::of_vec(script)))
}

fn push(script: &mut Vec<u8>, piece: &[u8]) -> Result<(), ScriptStop>
    ensures ok { OnOk result (script.new.items ≡ script.old.items ++ piece.now) }
    ensures err { IfErr result (λ e. e ≡ ScriptStop.Memory) }
{
    match script.extend_from_slice(piece) {
        Ok(()) => Ok(()),
        Err(_) => Err(ScriptStop::Memory),
    }
}
