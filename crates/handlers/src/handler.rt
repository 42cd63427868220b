// What an opener asks and tells the handler that it was given.
ghost use Rattle.std.specs.Prelude.{◌≡◌, ◌+◌, ◌++◌, ◌∷◌, [], ℕ, List, length, OnOk, OnErr, IfOk};
ghost use Rattle.meta_record.specs.declared.shown.Damage.{Damage as Harm};
ghost use Rattle.handlers.specs.declared.handler.Strategy.{Strategy as Way};
ghost use Rattle.handlers.specs.declared.handler.Notice.{Notice as Telling};

use expiring_map::Memory;
use meta_record::Damage;

/// What becomes of a damaged store.
#[derive(Clone, Copy, Debug, PartialEq, Eq)]
pub enum Strategy {
    /// Its pairs are given up, and it begins anew.
    Discard,
    /// The pairs that can still be read are written anew.
    Recover,
    /// It stays as it is, and the call that met it is stopped.
    Leave,
}

/// The sequence and the checksum that an opener found changed.
#[derive(Clone, Copy, Debug, PartialEq, Eq)]
pub struct Notice {
    pub sequence: u32,
    pub checksum: u32,
}

/// Answers the questions of one opener. Its questions are numbered from 1.
pub trait Handler: Drop {
    /// The answer to a damage at its question's number.
    ghost rule: { Self → Harm → ℕ → Way };

    /// The damages that it was asked about, the first of them first.
    ghost told: { Self → List Harm };

    /// What it was told of changes by others, the first of them first.
    ghost changes_told: { Self → List Telling };

    /// What is to become of a store that is damaged so.
    fn on_damage(&mut self, damage: Damage) -> Result<Strategy, Memory>
        ensures answer { IfOk result (λ strategy. strategy ≡ rule self.old damage (length (told self.old) + 1)) }
        ensures ok { OnOk result (told self.new ≡ told self.old ++ damage ∷ []) }
        ensures err { OnErr result (told self.new ≡ told self.old) }
        ensures changes { changes_told self.new ≡ changes_told self.old }
        ensures rule { rule self.new ≡ rule self.old };

    /// Another opener changed the store: it has this sequence and this checksum now.
    fn on_changed(&mut self, sequence: u32, checksum: u32) -> Result<(), Memory>
        ensures ok { OnOk result (changes_told self.new ≡ changes_told self.old ++ record { sequence = sequence; checksum = checksum } ∷ []) }
        ensures err { OnErr result (changes_told self.new ≡ changes_told self.old) }
        ensures told { told self.new ≡ told self.old }
        ensures rule { rule self.new ≡ rule self.old };
}
