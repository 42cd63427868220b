// A read without a call: a look at two words, and the answer of the kept image.
ghost use Rattle.std.specs.Prelude.{◌≡◌, ◌↔◌, IsTrue, None, IfOk, IfErr, OnOk, option_copied, ⊤};
ghost use Rattle.std.specs.Borrow.{follows_so, sem};
ghost use mathlib.Core.Option.{none};
ghost use Rattle.expiring_map.specs.Live.{value_at};
ghost use Rattle.loader.specs.Maps.{map_of_image};
ghost use Rattle.opener.specs.Ends.{OnImage};
ghost use Rattle.opener.specs.declared.work.Work.TheVariants.{Idle};
ghost use Rattle.opener.specs.Opener.{Tied};
ghost use Rattle.opener.specs.Quick.{IsAnswered, IsUpToDate, IsStale, OnCold, OnFault, OnStale, PeekFails, ended_as, left_by};
ghost use Rattle.opener.specs.contracts.opener_core.OpenerCore.{the_row};

use crate::opener_core::OpenerCore;
use crate::work::Work;
use region_words::Share;
use thiserror::Error;

/// Why a quick read wasn't answered.
#[derive(Clone, Copy, Debug, PartialEq, Eq, Error)]
pub enum Quick {
    /// No image is kept.
    #[error("no image is kept")]
    Cold,
    /// The kept image has other words than the region, whose two these are.
    #[error("the image is stale: checksum {checksum}, sequence {sequence}")]
    Stale { checksum: u32, sequence: u32 },
    /// The share failed, and the opener has ended.
    #[error("the share failed")]
    Fault,
}

impl OpenerCore {
    /// Whether no call runs, and the opener has not ended.
    pub fn is_idle(&self) -> bool
        ensures { IsTrue result ↔ (self.now.work ≡ Idle) }
    {
        matches!(self.work, Work::Idle)
    }

    /// The value of a key at a moment, in seconds, from the kept image, where the region still has its two words. It makes
    /// two loads and no event, asks for no lock and no memory, and waits for nothing. Where it isn't answered, a `Get` is.
    pub fn quick_get<S: Share>(
        &mut self,
        share: &mut S,
        key: &[u8],
        now: u32,
    ) -> Result<Option<&[u8]>, Quick>
        requires tied { Tied self.old (S.state share.old) }
        requires idle { self.old.work ≡ Idle }
        ensures* opener { sem 𝓛 (follows_so the_row the_row self.entry.ghost_name none (λ _ _. ⊤) (λ n. n ≡ left_by result self.old)) }
        ensures tied { Tied (left_by result self.old) (S.state share.new) }
        ensures ok { IfOk result (λ value. IsAnswered self.old.image (option_copied value) key.now now (S.state share.old) (S.state share.new)) }
        ensures none { self.old.image ≡ None → result ≡ Err Quick.Cold }
        ensures cold { IfErr result (λ why. OnCold why ((self.old.image ≡ None) × (S.state share.new ≡ S.state share.old))) }
        ensures stale { IfErr result (λ why. OnStale why (λ checksum sequence. IsStale self.old.image checksum sequence (S.state share.old) (S.state share.new))) }
        ensures fault { IfErr result (λ why. OnFault why (PeekFails (S.state share.old) (S.state share.new))) }
    {
        self.look(share)?;
        Ok(self.kept_value(key, now))
    }

    /// A look at both words: those of the kept image, or why it doesn't serve.
    pub fn look<S: Share>(&mut self, share: &mut S) -> Result<(), Quick>
        requires tied { Tied self.old (S.state share.old) }
        requires idle { self.old.work ≡ Idle }
        ensures opener { self.new ≡ left_by result self.old }
        ensures tied { Tied (left_by result self.old) (S.state share.new) }
        ensures ok { OnOk result (IsUpToDate self.old.image (S.state share.old) (S.state share.new)) }
        ensures none { self.old.image ≡ None → result ≡ Err Quick.Cold }
        ensures cold { IfErr result (λ why. OnCold why ((self.old.image ≡ None) × (S.state share.new ≡ S.state share.old))) }
        ensures stale { IfErr result (λ why. OnStale why (λ checksum sequence. IsStale self.old.image checksum sequence (S.state share.old) (S.state share.new))) }
        ensures fault { IfErr result (λ why. OnFault why (PeekFails (S.state share.old) (S.state share.new))) }
    {
        if self.image.is_none() {
            return Err(Quick::Cold);
        }
        let Ok(peek) = share.peek_checksum() else {
            return Err(self.fault());
        };
        let Ok(sequence) = share.peek_sequence() else {
            return Err(self.fault());
        };
        if !self.is_current(peek, sequence) {
            let checksum = peek.checksum;
            return Err(Quick::Stale { checksum, sequence });
        }
        Ok(())
    }

    // The share failed, and the opener ends.
    fn fault(&mut self) -> Quick
        ensures why { result ≡ Quick.Fault }
        ensures opener { self.new ≡ ended_as self.old.who }
    {
        self.end();
        Quick::Fault
    }

    /// The value of a key at a moment, in seconds, in the kept image.
    pub fn kept_value(&self, key: &[u8], now: u32) -> Option<&[u8]>
        ensures value { OnImage self.now.image (λ i. option_copied result ≡ value_at (map_of_image i) key.now now) }
        ensures none { self.now.image ≡ None → result ≡ None }
    {
        self.image.as_ref()?.map().value_at(key, now)
    }
}
