// The items of a payload.
ghost use Rattle.std.specs.Prelude.{◌≡◌};

use expiring_map::Bytes;
use std::marker::Model;

/// A key with what was written for it; an empty value removes the key.
#[derive(Debug, Drop)]
pub struct Item {
    pub key: Bytes,
    pub value: Bytes,
}

/// A list of items.
#[derive(Debug, Drop)]
pub struct Items {
    items: Vec<Item>,
}

impl Model for Items {
    ghost use Rattle.std.specs.Prelude.{List};
    ghost use Rattle.kv_pairs.specs.declared.item.Item.{Item};

    ghost Value = { List Item };

    ghost view = { λ a. a.items.items };
}

impl Items {
    pub fn as_slice(&self) -> &[Item]
        ensures { result.now ≡ self.now }
    {
        &self.items
    }

    /// The same items; their memory is handed over.
    pub fn of_vec(from: Vec<Item>) -> Items
        ensures { result ≡ from.items }
    {
        Items { items: from }
    }

    /// The same items; their memory is handed over.
    pub fn into_vec(self) -> Vec<Item>
        ensures { result.items ≡ self }
    {
        self.items
    }
}
