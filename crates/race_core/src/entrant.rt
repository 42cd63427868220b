// An opener of a race, with its calls.
ghost use Rattle.std.specs.Prelude.{◌≡◌, ◌↔◌, ◌≤◌, IsTrue, None, length};
ghost use Rattle.opener.specs.Begins.{call_refusal};
ghost use Rattle.opener.specs.Calls.{holds_after};
ghost use Rattle.kv_pairs.specs.declared.packed.TheConstants.{LONGEST_FIELD};

use crate::halt::Halt;
use change_log::Call;
use handlers::Strategy;
use kv_pairs::LONGEST_FIELD;
use lock_rules::MOST_HOLDS;
use std::alloc::Global;
use std::mem;

/// A call of an opener, at a moment in seconds, which the line of this number names.
#[derive(Drop)]
pub struct TimedCall {
    pub line: usize,
    pub now: u32,
    pub call: Call,
}

/// An opener of a race: the strategy of its handler, its calls in their order, and the holds that are left when they are answered.
#[derive(Drop)]
pub struct Entrant {
    pub strategy: Strategy,
    pub calls: Vec<TimedCall>,
    pub holds: u32,
}

impl Entrant {
    ghost use Rattle.std.specs.Prelude.{◌≡◌, ◌++◌, ◌∷◌, [], IfErr, OnOk, None};
    ghost use Rattle.opener.specs.Begins.{call_refusal};
    ghost use Rattle.opener.specs.Calls.{holds_after};
    ghost use Rattle.race_core.specs.declared.halt.Halt.TheVariants as halt;

    /// An opener without a call.
    pub(crate) fn new(alloc: Global, strategy: Strategy) -> Entrant
        ensures strategy { result.strategy ≡ strategy }
        ensures calls { result.calls.items ≡ [] }
        ensures holds { result.holds ≡ 0 }
    {
        Entrant {
            strategy,
            calls: Vec::new(alloc),
            holds: 0,
        }
    }

    /// One call more.
    pub(crate) fn ask(&mut self, asked: TimedCall) -> Result<(), Halt>
        ensures strategy { OnOk result (self.new.strategy ≡ self.old.strategy) }
        ensures calls { OnOk result (self.new.calls.items ≡ self.old.calls.items ++ asked ∷ []) }
        ensures holds { OnOk result (self.new.holds ≡ holds_after asked.call self.old.holds) }
        ensures may { OnOk result (call_refusal asked.call self.old.holds ≡ None) }
        ensures err { IfErr result (λ why. why ≡ halt.Refused → call_refusal asked.call self.old.holds ≡ None → ⊥) }
    {
        if !may_begin(&asked.call, self.holds) {
            mem::drop(asked);
            return Err(Halt::Refused);
        }
        let holds = holds_after(&asked.call, self.holds);
        if self.calls.push(asked).is_err() {
            return Err(Halt::Memory);
        }
        self.holds = holds;
        Ok(())
    }
}

/// Whether a call may begin beside so many holds.
pub(crate) fn may_begin(call: &Call, holds: u32) -> bool
    ensures { IsTrue result ↔ (call_refusal call.now holds ≡ None) }
{
    match call {
        Call::Get { key } | Call::Remove { key } => is_field(key.as_slice()),
        Call::Put { key, value, .. } => is_field(key.as_slice()) && is_field(value.as_slice()),
        Call::Release => holds > 0,
        Call::Hold => holds < MOST_HOLDS,
        _ => true,
    }
}

// Whether a key or a value has a length that a store may have.
fn is_field(bytes: &[u8]) -> bool
    ensures { IsTrue result ↔ ((1 ≤ length bytes.now) × (length bytes.now ≤ LONGEST_FIELD)) }
{
    !bytes.is_empty() && bytes.len() <= LONGEST_FIELD
}

// The holds that an answered call leaves.
fn holds_after(call: &Call, holds: u32) -> u32
    requires { call_refusal call.now holds ≡ None }
    ensures { result ≡ holds_after call.now holds }
{
    match call {
        Call::Hold => holds + 1,
        Call::Release => holds - 1,
        _ => holds,
    }
}
