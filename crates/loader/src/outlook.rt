// What a load looks for, or has found.
ghost use Rattle.std.specs.Prelude.{◌≡◌, ◌≤◌, ◌<◌, [], length, IfOk, IfErr, OnOk};
ghost use Rattle.region_words.specs.Region.{Region};
ghost use Rattle.kv_pairs.specs.Growth.{largest};
ghost use Rattle.loader.specs.FirstWords.{AreFirst, HasAccepted, IsWritten};
ghost use Rattle.loader.specs.Candidates.{IsFront, NoneBefore, turn_of};
ghost use Rattle.loader.specs.Outlooks.{IsOutlookOf, IsDue, GoesOnFrom, RefusesRecord};

use crate::candidates::{Candidate, Judged, judge};
use crate::first_words::FirstWords;
use crate::found::{Found, find};
use crate::stops::LoadStop;
use expiring_map::Memory;
use meta_record::check_record;
use std::alloc::Global;

/// What is looked for, or was found.
#[derive(Drop)]
pub enum Outlook {
    /// The payload of this candidate is to be loaded further.
    Wants(Candidate),
    Found(Found),
}

/// The outlook before a payload word is loaded. The record is looked at as soon as the first words are complete.
pub fn look_first(alloc: Global, first: &FirstWords) -> Result<Outlook, LoadStop>
    requires { first.now.made ≤ 10 }
    ensures early { first.now.made < 10 → result ≡ Ok (Outlook.Wants Candidate.Record) }
    ensures due { IfOk result (λ outlook. first.now.made ≡ 10 → IsDue first.now [] outlook) }
    ensures accepted { OnOk result (first.now.made ≡ 10 → HasAccepted first.now) }
    ensures told { IfOk result (λ outlook. (r : Region) → AreFirst first.now r → IsOutlookOf outlook r) }
    ensures err { IfErr result (λ stop. RefusesRecord stop first.now) }
{
    if !first.are_complete() {
        return Ok(Outlook::Wants(Candidate::Record));
    }
    check_record(&first.record(), first.header())?;
    Ok(look(alloc, first, &[], Candidate::Record)?)
}

/// What the words loaded so far tell, where the candidates before this one don't agree.
pub fn look(
    alloc: Global,
    first: &FirstWords,
    payload: &[u8],
    from: Candidate,
) -> Result<Outlook, Memory>
    requires complete { first.now.made ≡ 10 }
    requires small { length payload.now ≤ largest }
    requires written { 0 < turn_of from → IsWritten first.now }
    ensures due { IfOk result (IsDue first.now payload.now) }
    ensures onward { IfOk result (GoesOnFrom from) }
    ensures told { IfOk result (λ outlook. (r : Region) → AreFirst first.now r → IsFront payload.now r → NoneBefore from r → IsOutlookOf outlook r) }
{
    match judge(first, payload, from) {
        Judged::Wants(candidate) => Ok(Outlook::Wants(candidate)),
        Judged::Shows(shown) => Ok(Outlook::Found(find(alloc, first, payload, shown)?)),
    }
}
