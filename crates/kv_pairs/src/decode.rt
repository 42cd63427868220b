// Reading a payload: a function for each part of its grammar.
ghost use Rattle.std.specs.Prelude.{◌≡◌, ◌+◌, ◌<◌, ◌≤◌, IfOk, IfErr, MatchOption, List, Some, None, [], drop, length};
ghost use Rattle.kv_pairs.specs.Reading.{text_at, unit_at, units_at, read_payload, items_of, greedy_items, greedy_size, run_size};
ghost use Rattle.kv_pairs.specs.Grammar.{IsPayloadOf, IsGreedy, Units, IsLongestRun};
ghost use Rattle.kv_pairs.specs.declared.item.Item.{Item};
ghost use Rattle.kv_pairs.specs.Found.{items_found, HaveKeys, IfNotItems};

use crate::item::{Item, Items};
use crate::length::read_length;
use expiring_map::{Bytes, Memory};
use std::alloc::Global;
use thiserror::Error;

/// Why a payload gave no items.
#[derive(Clone, Copy, Debug, PartialEq, Eq, Error)]
pub enum ItemsStop {
    #[error("no items from byte {at} on")]
    NotItems { at: usize },
    #[error("out of memory")]
    Memory,
}

impl From<Memory> for ItemsStop {
    ghost use Rattle.std.specs.Prelude.{◌≡◌};
    ghost use Rattle.kv_pairs.specs.declared.decode.ItemsStop.TheVariants.{Memory};

    ghost from_gives = { λ _ e. e ≡ Memory };

    fn from(_: Memory) -> Self {
        ItemsStop::Memory
    }
}

// A key and a value, as they stand in a payload.
#[derive(Clone, Copy)]
pub(crate) struct Entry<'a> {
    pub(crate) key: &'a [u8],
    pub(crate) value: &'a [u8],
}

impl Entry<'_> {
    ghost use Rattle.std.specs.Prelude.{◌≡◌, IfOk};

    fn to_item(self, alloc: Global) -> Result<Item, Memory>
        ensures { IfOk result (λ item. item ≡ record { key = self.entry.key.now; value = self.entry.value.now }) }
    {
        Ok(Item {
            key: Bytes::copy_of(alloc, self.key)?,
            value: Bytes::copy_of(alloc, self.value)?,
        })
    }
}

// The items of the whole units at the front of some bytes, and what stands behind them.
#[derive(Drop)]
struct Front<'a> {
    items: Vec<Item>,
    rest: &'a [u8],
}

impl Front<'_> {
    ghost use Rattle.std.specs.Prelude.{◌≡◌, ◌-◌, ◌<◌, ◌≤◌, MatchResult, [], length};
    ghost use Rattle.kv_pairs.specs.declared.decode.ItemsStop.TheVariants.{NotItems};

    // The items, where nothing stands behind them before `end`.
    fn to_end(self, end: usize) -> Result<Items, ItemsStop>
        requires { length self.rest.now ≤ end }
        ensures { MatchResult result (λ items. (self.entry.rest.now ≡ []) × (items ≡ self.entry.items.items))
            (λ e. (0 < length self.entry.rest.now) × (e ≡ NotItems (end - length self.entry.rest.now))) }
    {
        if self.rest.is_empty() {
            Ok(Items::of_vec(self.items))
        } else {
            Err(ItemsStop::NotItems {
                at: end - self.rest.len(),
            })
        }
    }
}

/// The items of a payload. `NotItems` has the length of the longest front of the payload that has items.
pub fn decode_all(alloc: Global, payload: &[u8]) -> Result<Items, ItemsStop>
    ensures ok { IfOk result (λ items. items_of payload.now ≡ Some items) }
    ensures grammar { IfOk result (λ items. IsPayloadOf payload.now items) }
    ensures keys { IfOk result HaveKeys }
    ensures none { IfErr result (λ e. IfNotItems e (λ at. items_of payload.now ≡ None)) }
    ensures outside { IfErr result (λ e. IfNotItems e (λ at. (items : List Item) → IsPayloadOf payload.now items → ⊥)) }
    ensures at { IfErr result (λ e. IfNotItems e (λ at. at ≡ greedy_size payload.now)) }
    ensures greedy { IfErr result (λ e. IfNotItems e (λ at. IsGreedy payload.now at (greedy_items payload.now))) }
{
    read_front(alloc, payload)?.to_end(payload.len())
}

/// The items of the longest front of the payload that has items, be it empty.
pub fn decode_greedy(alloc: Global, payload: &[u8]) -> Result<Items, Memory>
    ensures ok { IfOk result (λ items. items ≡ greedy_items payload.now) }
    ensures greedy { IfOk result (λ items. IsGreedy payload.now (greedy_size payload.now) items) }
    ensures keys { IfOk result HaveKeys }
{
    Ok(Items::of_vec(read_front(alloc, payload)?.items))
}

/// The items of the units from a place in a payload on, to its end. `NotItems` has the place at which the
/// longest run of whole units from there on ends.
pub fn decode_from(alloc: Global, payload: &[u8], at: usize) -> Result<Items, ItemsStop>
    requires { at ≤ length payload.now }
    ensures ok { IfOk result (λ items. units_at (drop at payload.now) ≡ (items, [])) }
    ensures grammar { IfOk result (λ items. Units (drop at payload.now) items) }
    ensures keys { IfOk result HaveKeys }
    ensures outside { IfErr result (λ e. IfNotItems e (λ end. (items : List Item) → Units (drop at payload.now) items → ⊥)) }
    ensures at { IfErr result (λ e. IfNotItems e (λ end. end ≡ at + run_size (drop at payload.now))) }
    ensures longest { IfErr result (λ e. IfNotItems e (λ end.
        IsLongestRun (drop at payload.now) (run_size (drop at payload.now)) (units_at (drop at payload.now)).0)) }
{
    let (_, units) = payload.split_at(at);
    read_units(alloc, units)?.to_end(payload.len())
}

// The text at the front, a length and so many bytes, and what stands behind it.
fn read_text(bytes: &[u8]) -> Option<(&[u8], &[u8])>
    ensures { MatchOption result (text_at bytes.now ≡ None) (λ r. text_at bytes.now ≡ Some (r.0.now, r.1.now)) }
{
    let (size, after) = read_length(bytes).ok()?;
    let rest = &bytes[after..];
    if size as usize > rest.len() {
        return None;
    }
    Some(rest.split_at(size as usize))
}

// The unit at the front, which is no entry where its first length is 0, and what stands behind it.
pub(crate) fn read_unit(bytes: &[u8]) -> Option<(Option<Entry<'_>>, &[u8])>
    ensures { MatchOption result (unit_at bytes.now ≡ None) (λ r. unit_at bytes.now ≡ Some (items_found r.0, r.1.now)) }
{
    let (key, rest) = read_text(bytes)?;
    if key.is_empty() {
        return Some((None, rest));
    }
    let (value, rest) = read_text(rest)?;
    Some((Some(Entry { key, value }), rest))
}

// The items that a payload begins with, and what stands behind them.
#[tactic(auto, unfolding(crate::specs::Reading::read_payload))]
fn read_front(alloc: Global, payload: &[u8]) -> Result<Front<'_>, Memory>
    ensures read { IfOk result (λ r. read_payload payload.now ≡ (r.items.items, r.rest.now)) }
    ensures keys { IfOk result (λ r. HaveKeys r.items.items) }
    ensures within { IfOk result (λ r. length r.rest.now ≤ length payload.now) }
{
    match read_length(payload) {
        Ok((_, size)) => read_units(alloc, &payload[size..]),
        Err(_) => Ok(Front {
            items: Vec::new(alloc),
            rest: payload,
        }),
    }
}

// The items of the whole units at the front, and what stands behind them.
fn read_units(alloc: Global, bytes: &[u8]) -> Result<Front<'_>, Memory>
    ensures read { IfOk result (λ r. units_at bytes.now ≡ (r.items.items, r.rest.now)) }
    ensures keys { IfOk result (λ r. HaveKeys r.items.items) }
    ensures within { IfOk result (λ r. length r.rest.now ≤ length bytes.now) }
{
    let mut items = Vec::new(alloc);
    let mut rest = bytes;
    while let Some((entry, behind)) = read_unit(rest) {
        if let Some(entry) = entry {
            items.push(entry.to_item(alloc)?)?;
        }
        rest = behind;
    }
    Ok(Front { items, rest })
}

#[cfg(test)]
mod tests {
    use super::*;
    use std::test::Fail;

    // The items k with 07 and j with 01, and a zero between them.
    const PAYLOAD: [u8; 14] = [
        0xff, 0xff, 0xff, 0x07, 0x81, 0x00, 0x6b, 0x01, 0x07, 0x00, 0x01, 0x6a, 0x01, 0x01,
    ];

    fn are(items: &[Item], rows: &[(&[u8], &[u8])]) -> bool {
        items.len() == rows.len()
            && items.iter().zip(rows).all(|(item, row)| item.key.as_slice() == row.0
                && item.value.as_slice() == row.1)
    }

    #[test]
    fn a_payload_is_read_to_its_end(rt: HostRuntime) -> Result<(), Fail> {
        let rows: [(&[u8], &[u8]); 2] = [(&[0x6b], &[0x07]), (&[0x6a], &[0x01])];
        let items = decode_all(rt.alloc(), &PAYLOAD)?;
        assert!(rt; are(items.as_slice(), &rows));
        let items = decode_from(rt.alloc(), &PAYLOAD, 4)?;
        assert!(rt; are(items.as_slice(), &rows));
        let items = decode_from(rt.alloc(), &PAYLOAD, 10)?;
        assert!(rt; are(items.as_slice(), &rows[1..]));
        assert!(rt; decode_all(rt.alloc(), &[])?.as_slice().is_empty());
        assert!(rt; decode_from(rt.alloc(), &PAYLOAD, 14)?.as_slice().is_empty());
        Ok(())
    }

    #[test]
    fn a_payload_that_ends_inside_an_item_has_the_items_before_it(
        rt: HostRuntime,
    ) -> Result<(), Fail> {
        let rows: [(&[u8], &[u8]); 1] = [(&[0x6b], &[0x07])];
        let cut = &PAYLOAD[..13];
        let stop = Some(ItemsStop::NotItems { at: 10 });
        assert_eq!(rt; decode_all(rt.alloc(), cut).err(), stop);
        assert_eq!(rt; decode_from(rt.alloc(), cut, 4).err(), stop);
        let greedy = decode_greedy(rt.alloc(), cut)?;
        assert!(rt; are(greedy.as_slice(), &rows));
        Ok(())
    }

    #[test]
    fn a_place_with_no_item_is_told(rt: HostRuntime) -> Result<(), Fail> {
        let rows: [(&[u8], usize); 5] = [
            (&[0xff, 0xff, 0xff, 0x07, 0x05], 4),
            (&[0x80, 0x80, 0x80, 0x80, 0x08, 0x00], 0),
            (&[0x80], 0),
            (&[0x07, 0x01, 0x61, 0x00, 0x01], 4),
            (&[0x07, 0x01, 0x61, 0x80, 0x80, 0x80, 0x80, 0x80, 0x00], 1),
        ];
        for (payload, at) in rows.iter() {
            assert_eq!(rt;
                decode_all(rt.alloc(), payload).err(),
                Some(ItemsStop::NotItems { at: *at })
            );
        }
        assert!(rt; decode_greedy(rt.alloc(), &[0x80])?.as_slice().is_empty());
        Ok(())
    }
}
