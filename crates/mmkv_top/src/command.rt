// The words of a command line, read by hand.
ghost use Rattle.std.specs.Prelude.{◌≡◌, ℕ, List, MatchOption, codes};
ghost use Rattle.mmkv_top.specs.Command.{IsCommand, IsNamed, IsNoCommand};

use expiring_map::Bytes;
use region_words::is_id;
use world::MOST_OPENERS;

/// What is asked of the program.
#[derive(Clone, Copy)]
pub(crate) enum Command<'a> {
    /// Writes the text of a store's region.
    Dump { id: &'a [u8] },
    /// Plays the script of the input at a copy of a store.
    Play { id: &'a [u8] },
}

/// The command that the words give. The first word names the directory, and is not looked at.
pub(crate) fn command_of(words: &[Bytes]) -> Option<Command<'_>>
    ensures { MatchOption result (IsNoCommand words.now) (λ command. IsCommand words.now command) }
{
    let [_, name, id] = words else {
        return None;
    };
    let id = id.as_slice();
    if !is_id(id) {
        return None;
    }
    match name.as_slice() {
        b"dump" => Some(Command::Dump { id }),
        b"play" => Some(Command::Play { id }),
        _ => None,
    }
}

/// How many openers the command may open, and so how many handlers of each strategy it may want of its caller.
pub fn most_openers(words: &[Bytes]) -> usize
    ensures play { (id : List ℕ) → IsNamed words.now (codes "play") id → result ≡ MOST_OPENERS }
    ensures dump { (id : List ℕ) → IsNamed words.now (codes "dump") id → result ≡ 0 }
    ensures none { IsNoCommand words.now → result ≡ 0 }
{
    match command_of(words) {
        Some(Command::Play { .. }) => MOST_OPENERS,
        Some(Command::Dump { .. }) | None => 0,
    }
}
