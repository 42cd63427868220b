// The laws of a region that several openers change: each is the contract of a function that does nothing.
ghost use Rattle.region_words.specs.Laws.{FrontsAreLawful, FrontsAreApart, StaysARegion, StaysAccepted, RestsWhereFree, HoldersSeeOneRegion};
ghost use Rattle.region_words.specs.Laws.{ShowsHistoryAtRest, ShowsHistoryWhereFree, ShowsHistoryAfterACutAppend, LastIsConfirmed, LastHasTheHistory, LastIsRestored};
ghost use Rattle.region_words.specs.Laws.{ShowsHistoryAfterACut, ShowsHistoryOrBreaks, RowsEndWhole, RestoresShowTheLastImage};
ghost use Rattle.region_words.specs.Laws.{AppendIsMadeFromItsStanding, PackIsMadeFromItsStanding, ClearIsMadeFromItsStanding, EnableIsMadeFromItsStanding, DisableIsMadeFromItsStanding};
ghost use Rattle.region_words.specs.Laws.{RestoreIsMadeFromItsStanding, DiscardIsMadeFromItsStanding, SizeRepairIsMadeFromItsStanding};
ghost use Rattle.region_words.specs.Laws.{PackedIsBytes, ShownMapsCanBePacked, AppendsCanBePacked, RewritesCanBePacked};
ghost use Rattle.region_words.specs.Laws.{AppendLeavesItsStanding, WriteBackLeavesItsStanding, SwitchLeavesItsStanding, RecoverLeavesItsStanding};
ghost use Rattle.region_words.specs.Laws.{LastStandsInTheRecord, RestoreLeavesItsStanding, DiscardLeavesItsStanding, SizeRepairLeavesItsStanding};
ghost use Rattle.region_words.specs.Laws.{SequenceTellsTheImage, PeeksTellTheImage, PartialLoadsHold, WholeImagesGoOn};

/// A journal is lawful up to each of its events, and its payloads are told apart up to each.
pub fn what_holds_of_a_journal_holds_of_its_fronts()
    ensures lawful { FrontsAreLawful }
    ensures apart { FrontsAreApart }
{}

/// Whatever openers do, a region stays a region, and an accepted one accepted.
pub fn a_region_stays_a_region()
    ensures region { StaysARegion }
    ensures accepted { StaysAccepted }
{}

/// Where nobody holds the lock exclusive, no row of stores is under way.
pub fn no_row_is_under_way_where_nobody_holds_exclusive()
    ensures { RestsWhereFree }
{}

/// While an opener holds a lock, shared or exclusive, the others change nothing, whatever the checksums are.
pub fn a_holder_sees_one_region()
    ensures { HoldersSeeOneRegion }
{}

/// The central law. Where no row is under way the region shows the map of the history, unless a death cut a rewrite since the
/// last change, or the start was broken and nothing was changed.
pub fn a_region_at_rest_shows_its_history()
    ensures rest { ShowsHistoryAtRest }
    ensures free { ShowsHistoryWhereFree }
{}

/// A death within an append leaves the map of the history, with the change from its mark on.
pub fn a_cut_append_shows_its_history()
    ensures { ShowsHistoryAfterACutAppend }
{}

/// A death that cuts a row before the store of its sequence, or from its mark on, leaves the map of the history. Between them,
/// and before the mark of a repair, it leaves that map, the last confirmed image, or damage.
pub fn a_cut_row_shows_its_history()
    ensures history { ShowsHistoryAfterACut }
    ensures rewrite { ShowsHistoryOrBreaks }
{}

/// Whatever a region showed before, it shows a whole image after the last store of a row.
pub fn a_whole_row_shows_a_whole_image()
    ensures { RowsEndWhole }
{}

/// A death that cuts a restore before its mark leaves the same last confirmed image, which is restored next, or the map of the
/// history.
pub fn a_cut_restore_shows_the_last_image()
    ensures { RestoresShowTheLastImage }
{}

/// Where the last confirmed image is shown, it is the one whose checksum was confirmed last, if one was: the last confirmed words
/// were stored in this run, or agreed with the payload at its start. It is restored next.
pub fn the_last_confirmed_image_is_shown()
    ensures image { LastIsConfirmed }
    ensures map { LastHasTheHistory }
    ensures next { LastIsRestored }
{}

/// An equal sequence means that the kept image stands and nothing but appends came. It needs no lock.
pub fn an_equal_sequence_tells_that_the_image_stands()
    ensures { SequenceTellsTheImage }
{}

/// Two peeks, the checksum's first, that give the kept words mean that nothing was changed up to the first of them.
pub fn equal_peeks_tell_that_nothing_changed()
    ensures { PeeksTellTheImage }
{}

/// With an equal sequence a partial load that goes on to the record's checksum gives the image that a full load would give,
/// and wherever a whole image is shown it does go on.
pub fn a_partial_load_that_holds_is_whole()
    ensures holds { PartialLoadsHold }
    ensures whole { WholeImagesGoOn }
{}

/// The events that a maker works out from what it knows of the image are those of the region's row: it need not read the region.
pub fn a_row_is_made_from_its_standing()
    ensures append { AppendIsMadeFromItsStanding }
    ensures pack { PackIsMadeFromItsStanding }
    ensures clear { ClearIsMadeFromItsStanding }
    ensures enable { EnableIsMadeFromItsStanding }
    ensures disable { DisableIsMadeFromItsStanding }
    ensures restore { RestoreIsMadeFromItsStanding }
    ensures discard { DiscardIsMadeFromItsStanding }
    ensures size_repair { SizeRepairIsMadeFromItsStanding }
{}

/// What is known of an image after a row is worked out from what was known before it: nothing is read again.
pub fn a_row_leaves_its_standing()
    ensures append { AppendLeavesItsStanding }
    ensures write_back { WriteBackLeavesItsStanding }
    ensures switch { SwitchLeavesItsStanding }
    ensures recover { RecoverLeavesItsStanding }
    ensures last { LastStandsInTheRecord }
    ensures restore { RestoreLeavesItsStanding }
    ensures discard { DiscardLeavesItsStanding }
    ensures size_repair { SizeRepairLeavesItsStanding }
{}

/// A map is packed to bytes where its pairs can be packed and read again. They can in the map that a region shows, and in
/// what puts, removes and rewrites leave of such a map.
pub fn what_is_packed_is_bytes()
    ensures bytes { PackedIsBytes }
    ensures shown { ShownMapsCanBePacked }
    ensures appended { AppendsCanBePacked }
    ensures rewritten { RewritesCanBePacked }
{}
