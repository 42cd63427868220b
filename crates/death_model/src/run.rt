// A run that is followed event by event.
ghost use Rattle.std.specs.Prelude.{◌≡◌, IfOk, OnOk};
ghost use Rattle.death_model.specs.InRange.{IsInRange};
ghost use Rattle.death_model.specs.FilesInside.{region_in, IsReadable};
ghost use Rattle.death_model.specs.RunInside.{Begins, Follows, word_after};

use crate::files::Files;
use crate::seen::{Seen, plain_checksum};
use expiring_map::Memory;
use region_words::{Event, Side, What};
use std::alloc::Global;

// The files, the data word that was stored last, and the payloads at which a checksum was looked at so far.
#[derive(Drop)]
pub(crate) struct Run {
    files: Files,
    last_word: Option<u32>,
    seen: Seen,
}

impl Run {
    // A run of these files in which nothing has happened, and whether their payloads are apart.
    pub(crate) fn start(alloc: Global, files: Files) -> Result<(Run, bool), Memory>
        requires { IsReadable (region_in files) }
        ensures begins { IfOk result (λ begun. Begins begun.0 (region_in files) begun.1) }
        ensures readable { IfOk result (λ begun. IsReadable (region_in begun.0.files)) }
    {
        let mut seen = Seen::new(alloc);
        let apart = seen.look_at_all(&files)?;
        let run = Run {
            files,
            last_word: None,
            seen,
        };
        Ok((run, apart))
    }

    // Follows one event. False where a payload that it makes isn't apart from those before.
    pub(crate) fn step(&mut self, event: &Event) -> Result<bool, Memory>
        requires readable { IsReadable (region_in self.old.files) }
        requires range { IsInRange (region_in self.old.files) event.now.what }
        ensures follows { IfOk result (Follows self.old self.new event.now) }
        ensures readable { OnOk result (IsReadable (region_in self.new.files)) }
    {
        let before = self.files.sizes();
        self.files.apply(&event.what)?;
        if !self.seen.look_again(&self.files, before, &event.what)? {
            return Ok(false);
        }
        let checksum = plain_checksum(&event.what);
        if !self
            .seen
            .look_at_meant(&self.files, self.last_word, checksum)?
        {
            return Ok(false);
        }
        self.last_word = last_word(&event.what, self.last_word);
        Ok(true)
    }
}

// The data word that was stored last, after one more event.
fn last_word(what: &What, earlier: Option<u32>) -> Option<u32>
    ensures { result ≡ word_after what.now earlier }
{
    match what {
        What::Store {
            side: Side::Data,
            word,
            value: _,
            mark: _,
        } => Some(*word),
        _ => earlier,
    }
}
