// Pairs of a key and a value, and lists of them.
ghost use Rattle.std.specs.Prelude.{◌≡◌};

use crate::bytes::Bytes;
use std::marker::Model;

/// A key with its value and its expiry second, 0 for never.
#[derive(Debug, Drop)]
pub struct Pair {
    pub key: Bytes,
    pub value: Bytes,
    pub expiry: u32,
}

/// A list of pairs.
#[derive(Debug, Drop)]
pub struct Pairs {
    items: Vec<Pair>,
}

impl Model for Pairs {
    ghost use Rattle.std.specs.Prelude.{List};
    ghost use Rattle.expiring_map.specs.declared.pair.Pair.{Pair};

    ghost Value = { List Pair };

    ghost view = { λ pairs. pairs.items.items };
}

impl Pairs {
    pub fn as_slice(&self) -> &[Pair]
        ensures { result.now ≡ self.now }
    {
        &self.items
    }

    /// The same pairs; their memory is handed over.
    pub fn of_vec(from: Vec<Pair>) -> Pairs
        ensures { result ≡ from.items }
    {
        Pairs { items: from }
    }

    /// The same pairs; their memory is handed over.
    pub fn into_vec(self) -> Vec<Pair>
        ensures { result.items ≡ self }
    {
        self.items
    }
}

/// A list of keys.
#[derive(Debug, Drop)]
pub struct Keys {
    items: Vec<Bytes>,
}

impl Model for Keys {
    ghost use Rattle.std.specs.Prelude.{List, ℕ};

    ghost Value = { List (List ℕ) };

    ghost view = { λ keys. keys.items.items };
}

impl Keys {
    pub fn as_slice(&self) -> &[Bytes]
        ensures { result.now ≡ self.now }
    {
        &self.items
    }

    /// The same keys; their memory is handed over.
    pub fn of_vec(from: Vec<Bytes>) -> Keys
        ensures { result ≡ from.items }
    {
        Keys { items: from }
    }

    /// The same keys; their memory is handed over.
    pub fn into_vec(self) -> Vec<Bytes>
        ensures { result.items ≡ self }
    {
        self.items
    }
}
