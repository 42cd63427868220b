// The lines of a script, read from their text.
ghost use Rattle.std.specs.Prelude.{◌≡◌, ◌<◌, ◌≤◌, ◌^◌, ◌↔◌, IsTrue, IfOk, IsErrOf, Option, length, List, [], ◌∷◌, ℕ, codes};
ghost use Rattle.script_lang.specs.Lines.{IsLine, IsLineOf, strategy_word};
ghost use Rattle.script_lang.specs.Splitting.{Reads, words_of, AreNumbers};

use crate::call_words::{cut, timed_call};
use crate::line::Line;
use crate::value_words::{bits, number};
use expiring_map::Memory;
use handlers::Strategy;
use std::alloc::Global;
use thiserror::Error;

const MOST_STEPS: u32 = 1_048_576;

/// Why a line was not read.
#[derive(Clone, Copy, Debug, PartialEq, Eq, Error)]
pub enum LineStop {
    /// The text is no line of a script.
    #[error("no line of a script")]
    Bad,
    /// Memory was refused.
    #[error("out of memory")]
    Memory,
}

impl From<Memory> for LineStop {
    ghost use Rattle.std.specs.Prelude.{◌≡◌};
    ghost use Rattle.script_lang.specs.declared.grammar.LineStop.TheVariants as stop;

    ghost from_gives = { λ _ e. e ≡ stop.Memory };

    fn from(_: Memory) -> Self {
        LineStop::Memory
    }
}

fn strategy(word: &str) -> Option<Strategy>
    ensures { Reads (λ strategy. word.now ≡ strategy_word strategy) result }
{
    match word {
        "discard" => Some(Strategy::Discard),
        "recover" => Some(Strategy::Recover),
        "leave" => Some(Strategy::Leave),
        _ => None,
    }
}

fn two_numbers(text: &str) -> Option<(u32, u32)>
    ensures { Reads (AreNumbers (words_of text.now)) result }
{
    let (first, second) = cut(text)?;
    let first = number(first)?;
    let second = number(second)?;
    Some((first, second))
}

fn opening(text: &str) -> Option<Line>
    ensures { Reads (IsLineOf (codes "open" ∷ words_of text.now)) result }
{
    match strategy(text) {
        Some(strategy) => Some(Line::Open(strategy)),
        None => None,
    }
}

fn may_step(count: u32) -> bool
    ensures { IsTrue result ↔ ((1 ≤ count) × (count ≤ 1048576)) }
{
    1 <= count && count <= MOST_STEPS
}

fn steps(text: &str) -> Option<Line>
    ensures { Reads (IsLineOf (codes "step" ∷ words_of text.now)) result }
{
    match two_numbers(text) {
        Some((who, count)) => {
            if may_step(count) {
                Some(Line::Step { who, count })
            } else {
                None
            }
        }
        None => None,
    }
}

fn torn_death(who: &str, torn: &str) -> Option<Line>
    ensures { Reads (IsLineOf (codes "die" ∷ who.now ∷ words_of torn.now)) result }
{
    let who = number(who)?;
    let torn = bits(torn)?;
    Some(Line::Die {
        who,
        torn: Some(torn),
    })
}

fn clean_death(who: &str) -> Option<Line>
    ensures { Reads (IsLineOf (codes "die" ∷ who.now ∷ [])) result }
{
    let who = number(who)?;
    Some(Line::Die { who, torn: None })
}

fn death(text: &str) -> Option<Line>
    ensures { Reads (IsLineOf (codes "die" ∷ words_of text.now)) result }
{
    match cut(text) {
        Some((who, torn)) => torn_death(who, torn),
        None => clean_death(text),
    }
}

fn begin(alloc: Global, text: &str) -> Result<Option<Line>, Memory>
    requires { length text.now < 2 ^ 31 }
    ensures { IfOk result (Reads (IsLineOf (codes "begin" ∷ words_of text.now))) }
{
    match timed_call(alloc, text)? {
        Some((who, now, call)) => Ok(Some(Line::Begin { who, now, call })),
        None => Ok(None),
    }
}

fn next(alloc: Global, text: &str) -> Result<Option<Line>, Memory>
    requires { length text.now < 2 ^ 31 }
    ensures { IfOk result (Reads (IsLineOf (codes "call" ∷ words_of text.now))) }
{
    match timed_call(alloc, text)? {
        Some((who, now, call)) => Ok(Some(Line::Next { who, now, call })),
        None => Ok(None),
    }
}

fn named_line(alloc: Global, name: &str, text: &str) -> Result<Option<Line>, Memory>
    requires { length text.now < 2 ^ 31 }
    ensures { IfOk result (Reads (IsLineOf (name.now ∷ words_of text.now))) }
{
    match name {
        "open" => Ok(opening(text)),
        "step" => Ok(steps(text)),
        "die" => Ok(death(text)),
        "begin" => begin(alloc, text),
        "call" => next(alloc, text),
        _ => Ok(None),
    }
}

fn line_of(alloc: Global, text: &str) -> Result<Option<Line>, Memory>
    requires { length text.now < 2 ^ 31 }
    ensures { IfOk result (Reads (IsLineOf (words_of text.now))) }
{
    match cut(text) {
        Some((name, rest)) => named_line(alloc, name, rest),
        None => Ok(None),
    }
}

/// What a line names, which its text spells without its end; an empty line and a comment name nothing.
pub fn read_line(alloc: Global, line: &[u8]) -> Result<Option<Line>, LineStop>
    requires { length line.now < 2 ^ 31 }
    ensures ok { IfOk result (λ l. IsLine line.now l) }
    ensures bad { IsErrOf result LineStop.Bad → (l : Option Line) → IsLine line.now l → ⊥ }
{
    if line.is_empty() || line[0] == b'#' {
        return Ok(None);
    }
    let Ok(text) = std::str::from_utf8(line) else {
        return Err(LineStop::Bad);
    };
    match line_of(alloc, text)? {
        Some(line) => Ok(Some(line)),
        None => Err(LineStop::Bad),
    }
}
