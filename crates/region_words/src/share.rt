// A shared region as one opener sees it.
ghost use Rattle.std.specs.Prelude.{◌≡◌, ◌≢◌, ◌%◌, ◌<◌, ◌≤◌, length, false, Some, None, IfOk, IfErr, OnOk};
ghost use Rattle.kv_pairs.specs.Growth.{largest};
ghost use Rattle.region_words.specs.Region.{file_size, record_of};
ghost use Rattle.region_words.specs.Past.{region_after};
ghost use Rattle.region_words.specs.Told.{OnTold, changes_told};
ghost use Rattle.region_words.specs.Share.{ShareState, IsSound, HasWord, MayMake, MayTearAt, Goes, Fails, Stops, StopsReserving, StopsTrying, Tries, Dies, HasRoom};
ghost use Rattle.region_words.specs.Share.{loaded, stored, reserving, unlocked_by, word_in};

use crate::event::{Mark, Side, What};
use crate::stops::{Peek, ShareStop, TornStore, Unstored};
use lock_rules::{LockKind, Tried};

/// A shared region as one opener sees it. Each call but `who` and `changes` is one atomic step: between two calls others
/// may make events, unless the share is alone. A call that fails is its opener's death, and no call is made after it.
pub trait Share {
    /// What the share stands for.
    ghost state: { Self → ShareState };

    /// The opener's number.
    fn who(&self) -> u32
        ensures value { result ≡ (state self.now).who }
        ensures sound { IsSound (state self.now) };

    /// The changes in the journal as far as this share has seen it, 0 where it tells none.
    fn changes(&self) -> u32
        ensures { result ≡ changes_told (state self.now).told };

    /// The data file's length in bytes.
    fn size(&mut self) -> Result<u32, ShareStop>
        requires alive { (state self.old).ended ≡ false }
        ensures ok { OnOk result (Goes (loaded (state self.old)) (state self.old) (state self.new)) }
        ensures value { IfOk result (λ size. OnTold (state self.new).told (λ h. size ≡ file_size (region_after h.start h.past))) }
        ensures pages { IfOk result (λ size. (size % 4096 ≡ 0) × (0 < size) × (size ≤ largest)) }
        ensures err { IfErr result (λ stop. Stops stop (state self.old) (state self.new)) };

    /// A word of one of the two files.
    fn load(&mut self, side: Side, word: u32) -> Result<u32, ShareStop>
        requires alive { (state self.old).ended ≡ false }
        requires inside { HasWord side word (state self.old) }
        ensures ok { OnOk result (Goes (loaded (state self.old)) (state self.old) (state self.new)) }
        ensures value { IfOk result (λ value. OnTold (state self.new).told (λ h. value ≡ word_in (region_after h.start h.past) side word)) }
        ensures err { IfErr result (λ stop. Stops stop (state self.old) (state self.new)) };

    /// The checksum, without a lock or a turn, and the changes at that moment.
    fn peek_checksum(&mut self) -> Result<Peek, ShareStop>
        requires alive { (state self.old).ended ≡ false }
        ensures ok { OnOk result (Goes (loaded (state self.old)) (state self.old) (state self.new)) }
        ensures value { IfOk result (λ peek. OnTold (state self.new).told (λ h. peek.checksum ≡ (record_of (region_after h.start h.past)).checksum)) }
        ensures changes { IfOk result (λ peek. peek.changes ≡ changes_told (state self.new).told) }
        ensures err { IfErr result (λ stop. (stop ≡ ShareStop.Failed) × Fails (state self.old) (state self.new)) };

    /// The sequence, without a lock or a turn.
    fn peek_sequence(&mut self) -> Result<u32, ShareStop>
        requires alive { (state self.old).ended ≡ false }
        ensures ok { OnOk result (Goes (loaded (state self.old)) (state self.old) (state self.new)) }
        ensures value { IfOk result (λ value. OnTold (state self.new).told (λ h. value ≡ (record_of (region_after h.start h.past)).sequence)) }
        ensures err { IfErr result (λ stop. (stop ≡ ShareStop.Failed) × Fails (state self.old) (state self.new)) };

    /// Keeps so many places for stores and growths to come, and room for a data file of this size, 0 for none. What isn't
    /// used is given back at `unlock` and at the opener's death.
    fn reserve(&mut self, events: u32, size: u32) -> Result<(), ShareStop>
        requires alive { (state self.old).ended ≡ false }
        requires held { (state self.old).holds ≡ Some LockKind.Exclusive }
        ensures ok { OnOk result (Goes (reserving events size (state self.old)) (state self.old) (state self.new)) }
        ensures room { OnOk result (HasRoom (state self.new)) }
        ensures err { IfErr result (λ stop. StopsReserving events stop (state self.old) (state self.new)) };

    /// Stores one word, on a place that was reserved. After an error the mark is handed back.
    fn store(&mut self, side: Side, word: u32, value: u32, mark: Mark) -> Result<(), Unstored>
        requires alive { (state self.old).ended ≡ false }
        requires held { (state self.old).holds ≡ Some LockKind.Exclusive }
        requires place { 0 < (state self.old).reserved (state self.old).who }
        requires lawful { MayMake (What.Store side word value mark) (state self.old) }
        ensures ok { OnOk result (Goes (stored (What.Store side word value mark) (state self.old)) (state self.old) (state self.new)) }
        ensures err { IfErr result (λ unstored. (unstored.mark ≡ mark) × Stops unstored.stop (state self.old) (state self.new)) };

    /// Adds zeros to the data file up to this size, on a place and in room that were reserved.
    fn grow(&mut self, size: u32) -> Result<(), ShareStop>
        requires alive { (state self.old).ended ≡ false }
        requires held { (state self.old).holds ≡ Some LockKind.Exclusive }
        requires place { 0 < (state self.old).reserved (state self.old).who }
        requires room { size ≤ (state self.old).room (state self.old).who }
        requires lawful { MayMake (What.Grow size) (state self.old) }
        ensures ok { OnOk result (Goes (stored (What.Grow size) (state self.old)) (state self.old) (state self.new)) }
        ensures err { IfErr result (λ stop. Stops stop (state self.old) (state self.new)) };

    /// Tries once to take the lock. A taken lock keeps a place for its unlock.
    fn try_lock(&mut self, kind: LockKind) -> Result<Tried, ShareStop>
        requires alive { (state self.old).ended ≡ false }
        requires free { (state self.old).holds ≡ None }
        ensures ok { IfOk result (λ tried. Tries kind tried (state self.old) (state self.new)) }
        ensures err { IfErr result (λ stop. StopsTrying kind stop (state self.old) (state self.new)) };

    /// Gives the lock up, and what is still reserved.
    fn unlock(&mut self) -> Result<(), ShareStop>
        requires alive { (state self.old).ended ≡ false }
        requires held { (state self.old).holds ≢ None }
        requires lawful { MayMake What.Unlock (state self.old) }
        ensures ok { OnOk result (Goes (unlocked_by (state self.old)) (state self.old) (state self.new)) }
        ensures err { IfErr result (λ stop. Stops stop (state self.old) (state self.new)) };

    /// The opener dies, within the store of a payload word where `torn` names one, and its lock is given up.
    fn die(&mut self, torn: Option<TornStore>) -> Result<(), ShareStop>
        requires alive { (state self.old).ended ≡ false }
        requires torn { MayTearAt torn (state self.old) }
        ensures ok { OnOk result (Dies torn (state self.old) (state self.new)) }
        ensures err { IfErr result (λ stop. Stops stop (state self.old) (state self.new)) };
}
