// The map from keys to values that expire.
ghost use Rattle.std.specs.Prelude.{◌≡◌, ◌≢◌, ◌+◌, ◌==◌, [], IfOk, OnOk, OnErr, length};
ghost use Rattle.std.specs.Option.{option_copied};
ghost use Rattle.std.specs.FinMap as fin;
ghost use Rattle.expiring_map.specs.Map.{with_pair, pairs_of, IsFilled};
ghost use Rattle.expiring_map.specs.Live.{value_at, live_part, with_expiry, keys_at, count_at};

use crate::bytes::{Bytes, Memory};
use crate::iter::Iter;
use crate::kept::Kept;
use crate::pair::{Keys, Pair, Pairs};
use std::alloc::Global;
use std::collections::BTreeMap;
use std::marker::Model;

/// A map from keys to values that expire. No key and no value in it is empty.
#[derive(Debug, Drop)]
pub struct ExpiringMap {
    kept: BTreeMap<Vec<u8>, Kept>,
    alloc: Global,
}

impl Model for ExpiringMap {
    ghost use Rattle.std.specs.Prelude.{List, ℕ};
    ghost use Rattle.std.specs.Ordering.{nat_cmp};
    ghost use Rattle.std.specs.Cmp.Lexicographic.{slice_cmp};
    ghost use Rattle.std.specs.FinMap as map;
    ghost use Rattle.std.specs.Coded.{coded_ℕ, coded_list};
    ghost use Rattle.expiring_map.specs.ValueUntil.{ValueUntil, value_until_code};

    ghost Value = { map.FinMap (slice_cmp nat_cmp) ValueUntil };

    ghost coded = { map.code (coded_list coded_ℕ) value_until_code };

    ghost use Rattle.expiring_map.specs.Kept.{map_kept, AreKept};

    ghost view = { λ m. map_kept m.kept.entries };

    ghost invariant = { λ m. AreKept m.kept.entries };
}

impl ExpiringMap {
    /// An empty map, which takes no memory yet.
    pub fn new(alloc: Global) -> ExpiringMap
        ensures { result ≡ fin.empty }
    {
        ExpiringMap {
            kept: BTreeMap::new(alloc),
            alloc,
        }
    }

    /// Puts the pair in the place of the one with its key, if there is one.
    pub fn put(&mut self, pair: Pair) -> Result<(), Memory>
        requires key { pair.key ≢ [] }
        requires value { pair.value ≢ [] }
        ensures ok { OnOk result (self.new ≡ with_pair self.old pair) }
        ensures err { OnErr result (self.new ≡ self.old) }
    {
        let kept = Kept {
            value: pair.value,
            expiry: pair.expiry,
        };
        self.kept.insert(pair.key.into_vec(), kept)?;
        Ok(())
    }

    /// Takes the pair of a key out. False where there is none.
    pub fn take_out(&mut self, key: &[u8]) -> bool
        ensures found { result ≡ fin.contains_key self.old key.now }
        ensures after { self.new ≡ fin.remove self.old key.now }
    {
        self.kept.remove(key).is_some()
    }

    /// The value of a key at a second.
    pub fn value_at(&self, key: &[u8], now: u32) -> Option<&[u8]>
        ensures { option_copied result ≡ value_at self.now key.now now }
    {
        let kept = self.kept.get(key)?;
        if !kept.is_live(now) {
            return None;
        }
        Some(kept.value.as_slice())
    }

    /// Drops the pairs that have expired at a second, and says how many.
    pub fn drop_expired(&mut self, now: u32) -> usize
        ensures after { self.new ≡ live_part self.old now }
        ensures count { result + fin.len self.new ≡ fin.len self.old }
    {
        let before = self.kept.len();
        self.kept.retain(|_, kept| kept.is_live(now));
        before - self.kept.len()
    }

    /// Gives every pair this expiry second, 0 for never.
    pub fn set_expiry(&mut self, expiry: u32)
        ensures { self.new ≡ with_expiry expiry self.old }
    {
        self.kept.retain(|_, kept| {
            kept.expiry = expiry;
            true
        });
    }

    pub fn copy(&self) -> Result<ExpiringMap, Memory>
        ensures ok { IfOk result (λ copy. copy ≡ self.now) }
        ensures filled { IsFilled self.now }
    {
        Ok(ExpiringMap {
            kept: self.kept.clone()?,
            alloc: self.alloc,
        })
    }

    /// The pairs in byte order of keys, those that have expired too.
    pub fn pairs(&self) -> Result<Pairs, Memory>
        ensures ok { IfOk result (λ pairs. pairs ≡ pairs_of self.now) }
        ensures filled { IsFilled self.now }
    {
        let mut pairs = Vec::with_capacity(self.alloc, self.kept.len())?;
        for (key, kept) in &self.kept {
            pairs.push(Pair {
                key: Bytes::copy_of(self.alloc, key)?,
                value: kept.value.clone()?,
                expiry: kept.expiry,
            })?;
        }
        Ok(Pairs::of_vec(pairs))
    }

    /// The keys that live at a second, in byte order.
    pub fn keys_at(&self, now: u32) -> Result<Keys, Memory>
        ensures { IfOk result (λ keys. keys ≡ keys_at self.now now) }
    {
        let mut keys = Vec::new(self.alloc);
        for (key, kept) in &self.kept {
            if kept.is_live(now) {
                keys.push(Bytes::copy_of(self.alloc, key)?)?;
            }
        }
        Ok(Keys::of_vec(keys))
    }

    /// How many keys live at a second.
    pub fn count_at(&self, now: u32) -> usize
        ensures { result ≡ count_at self.now now }
    {
        self.kept.values().filter(|kept| kept.is_live(now)).count()
    }

    pub fn is_empty(&self) -> bool
        ensures { result ≡ (fin.len self.now == 0) }
    {
        self.len() == 0
    }

    /// The number of pairs, those that have expired too.
    pub fn len(&self) -> usize
        ensures count { result ≡ fin.len self.now }
        ensures pairs { result ≡ length (pairs_of self.now) }
        ensures filled { IsFilled self.now }
    {
        self.kept.len()
    }

    /// The pairs in byte order of keys, those that have expired too.
    pub fn iter(&self) -> Iter<'_>
        ensures rest { result ≡ pairs_of self.now }
        ensures filled { IsFilled self.now }
    {
        Iter {
            rest: self.kept.iter(),
        }
    }
}

#[cfg(test)]
mod tests {
    use super::*;
    use std::test::Fail;

    // Keys, values and expiries, in byte order of keys.
    const ROWS: [(&[u8], &[u8], u32); 3] = [
        (&[0x61], &[1, 2], 0),
        (&[0x6b], &[0x03, 0x61, 0x62, 0x63], 110),
        (&[0x6b, 0x00], &[7], 90),
    ];

    fn put_row(
        alloc: Global,
        map: &mut ExpiringMap,
        key: &[u8],
        value: &[u8],
        expiry: u32,
    ) -> Result<(), Memory> {
        if key.is_empty() || value.is_empty() {
            return Ok(());
        }
        let key = Bytes::copy_of(alloc, key)?;
        let value = Bytes::copy_of(alloc, value)?;
        map.put(Pair { key, value, expiry })
    }

    fn map_of_rows(alloc: Global) -> Result<ExpiringMap, Memory> {
        let mut map = ExpiringMap::new(alloc);
        for (key, value, expiry) in ROWS.iter().rev() {
            put_row(alloc, &mut map, key, value, *expiry)?;
        }
        Ok(map)
    }

    #[test]
    fn a_pair_lives_before_its_expiry_alone(rt: HostRuntime) -> Result<(), Fail> {
        let map = map_of_rows(rt.alloc())?;
        assert_eq!(rt;
            map.value_at(&[0x6b], 109),
            Some([0x03, 0x61, 0x62, 0x63].as_slice())
        );
        assert_eq!(rt; map.value_at(&[0x6b], 110), None);
        assert_eq!(rt;
            map.value_at(&[0x61], 4_294_967_295),
            Some([1, 2].as_slice())
        );
        assert_eq!(rt; map.value_at(&[0x62], 0), None);
        for (now, count) in [(0, 3), (89, 3), (90, 2), (109, 2), (110, 1)] {
            assert_eq!(rt; map.count_at(now), count, "at {now}");
            assert_eq!(rt; map.keys_at(now)?.as_slice().len(), count, "at {now}");
        }
        Ok(())
    }

    #[test]
    fn pairs_stand_in_byte_order(rt: HostRuntime) -> Result<(), Fail> {
        let map = map_of_rows(rt.alloc())?;
        let copy = map.copy()?;
        let pairs = map.pairs()?;
        assert_eq!(rt; pairs.as_slice().len(), 3);
        for ((lent, pair), row) in copy.iter().zip(pairs.as_slice()).zip(&ROWS) {
            assert_eq!(rt; lent.key, row.0);
            assert_eq!(rt; pair.key.as_slice(), row.0);
            assert_eq!(rt; lent.value, row.1);
            assert_eq!(rt; pair.value.as_slice(), row.1);
            assert_eq!(rt; lent.expiry, row.2);
            assert_eq!(rt; pair.expiry, row.2);
        }
        Ok(())
    }

    #[test]
    fn a_map_loses_what_is_taken_out_or_has_expired(rt: HostRuntime) -> Result<(), Fail> {
        let alloc = rt.alloc();
        let mut map = map_of_rows(alloc)?;
        put_row(alloc, &mut map, &[0x61], &[9], 100)?;
        assert_eq!(rt; map.value_at(&[0x61], 99), Some([9].as_slice()));
        assert_eq!(rt; map.len(), 3);
        assert_eq!(rt; map.drop_expired(100), 2);
        assert_eq!(rt; map.len(), 1);
        map.set_expiry(50);
        assert_eq!(rt; map.value_at(&[0x6b], 50), None);
        assert!(rt; !map.take_out(&[0x61]));
        assert!(rt; map.take_out(&[0x6b]));
        assert!(rt; map.is_empty());
        Ok(())
    }
}
