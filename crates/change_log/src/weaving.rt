// How answers and changes are made one history.
ghost use Rattle.std.specs.Prelude.{◌≡◌, map, ◌↔◌, ◌^◌, ◌<◌, ◌≤◌, ◌++◌, ℕ, All, Some, Err, IfOk, OnOk, length};
ghost use Rattle.std.specs.Option.{IfNone};
ghost use Rattle.change_log.specs.History.{IsWoven, IsFirstBeyond};
ghost use Rattle.change_log.specs.Seats.{entry_of, read_seats, change_seats};
ghost use Rattle.change_log.specs.declared.woven.WeaveStop.TheVariants as stop;

use crate::call::Answer;
use crate::change::Change;
use crate::made::makes_change;
use crate::seat::Seat;
use crate::woven::{Entry, WeaveStop, Woven};
use expiring_map::Memory;
use std::alloc::Global;

/// The answers and changes as one history: for each place the reads of that place,
/// by caller and its order, and then the change there.
pub fn weave(alloc: Global, changes: &[Change], answers: &[Answer]) -> Result<Woven, WeaveStop>
    requires changes { length changes.now < 2 ^ 32 }
    requires answers { length answers.now < 2 ^ 32 }
    ensures ok { IfOk result (λ woven. IsWoven changes.now answers.now woven) }
    ensures place { (i : ℕ) → (result ≡ Err (stop.PlaceRange i)) ↔ IsFirstBeyond changes.now answers.now i }
{
    if let Some(i) = first_beyond(changes, answers) {
        return Err(WeaveStop::PlaceRange(i));
    }
    match seated(alloc, changes, answers) {
        Ok(woven) => Ok(woven),
        Err(_) => Err(WeaveStop::Memory),
    }
}

fn first_beyond(changes: &[Change], answers: &[Answer]) -> Option<u32>
    requires { length answers.now < 2 ^ 32 }
    ensures found { (i : ℕ) → (result ≡ Some i) ↔ IsFirstBeyond changes.now answers.now i }
    ensures none { IfNone result (All (λ a. a.place ≤ length changes.now) answers.now) }
{
    for (i, answer) in answers.iter().enumerate() {
        if answer.place as usize > changes.len() {
            return Some(i as u32);
        }
    }
    None
}

fn seated(alloc: Global, changes: &[Change], answers: &[Answer]) -> Result<Woven, Memory>
    requires changes { length changes.now < 2 ^ 32 }
    requires answers { length answers.now < 2 ^ 32 }
    requires places { All (λ a. a.place ≤ length changes.now) answers.now }
    ensures { IfOk result (λ woven. IsWoven changes.now answers.now woven) }
{
    let mut seats = Vec::with_capacity(alloc, changes.len() + answers.len())?;
    seat_reads(&mut seats, answers)?;
    seat_changes(&mut seats, changes)?;
    seats.sort()?;
    Ok(Woven::of_vec(entries_of(alloc, &seats)?))
}

fn entries_of(alloc: Global, seats: &[Seat]) -> Result<Vec<Entry>, Memory>
    ensures { IfOk result (λ entries. entries.items ≡ map entry_of seats.now) }
{
    Ok(seats.iter().map(|seat| seat.entry()).collect(alloc)?)
}

fn seat_reads(seats: &mut Vec<Seat>, answers: &[Answer]) -> Result<(), Memory>
    requires { length answers.now < 2 ^ 32 }
    ensures { OnOk result (seats.new.items ≡ seats.old.items ++ read_seats 0 answers.now) }
{
    for (number, answer) in answers.iter().enumerate() {
        if !makes_change(answer) {
            seats.push(Seat {
                place: answer.place,
                is_change: false,
                who: answer.who,
                number: number as u32,
            })?;
        }
    }
    Ok(())
}

fn seat_changes(seats: &mut Vec<Seat>, changes: &[Change]) -> Result<(), Memory>
    requires { length changes.now < 2 ^ 32 }
    ensures { OnOk result (seats.new.items ≡ seats.old.items ++ change_seats 0 changes.now) }
{
    for place in 0..changes.len() as u32 {
        seats.push(Seat {
            place,
            is_change: true,
            who: 0,
            number: place,
        })?;
    }
    Ok(())
}
