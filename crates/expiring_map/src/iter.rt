// The pairs of a map, lent one after another.
ghost use Rattle.std.specs.Prelude.{length};
ghost use Rattle.std.specs.Iterator.{at_most};
ghost use Rattle.std.specs.Map.Iter.{TakesFirst};
ghost use Rattle.expiring_map.specs.Lent.{lent};

use crate::kept::Kept;
use std::collections::btree_map;
use std::marker::Model;

/// A pair that a map lends. The expiry is a second, 0 for never.
#[derive(Clone, Copy)]
pub struct PairRef<'a> {
    pub key: &'a [u8],
    pub value: &'a [u8],
    pub expiry: u32,
}

/// The pairs of a map that are still to come, in byte order of keys.
#[derive(Drop)]
pub struct Iter<'a> {
    pub(crate) rest: btree_map::Iter<'a, Vec<u8>, Kept>,
}

impl<'a> Model for Iter<'a> {
    ghost use Rattle.std.specs.Prelude.{List, map};
    ghost use Rattle.expiring_map.specs.declared.pair.Pair.{Pair};

    ghost Value = { List Pair };

    ghost use Rattle.expiring_map.specs.Kept.{pair_kept};

    ghost view = { λ i. map pair_kept i.rest };
}

impl<'a> Iterator for Iter<'a> {
    type Item = PairRef<'a>;

    ghost next_gives = { TakesFirst lent };

    ghost remaining = { λ rest. at_most (length rest) };

    fn next(&mut self) -> Option<PairRef<'a>> {
        let (key, kept) = self.rest.next()?;
        Some(PairRef {
            key: key.as_slice(),
            value: kept.value.as_slice(),
            expiry: kept.expiry,
        })
    }
}
