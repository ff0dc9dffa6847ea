//! A list of messages, as repeated fields hold it.

ghost use Rattle.std.specs.Prelude.{◌≡◌};

use crate::NoMemory;
use copying::Copied;
use std::marker::Model;

/// The values of a repeated field, in their order.
#[derive(Drop)]
pub struct Items<T> {
    items: Vec<T>,
}

impl<T> Model for Items<T> {
    ghost use Rattle.std.specs.Prelude.{List};

    ghost Value = { List T };

    ghost view = { λ list. list.items.items };
}

impl<T> Items<T> {
    /// The list of these items.
    pub fn new(items: Vec<T>) -> Self
        ensures { result ≡ items.items }
    {
        Items { items }
    }

    /// Its items, in order.
    pub fn as_slice(&self) -> &[T]
        ensures { result.now ≡ self.now }
    {
        self.items.as_slice()
    }

    /// Its items as a vector, with no copy.
    pub fn into_vec(self) -> Vec<T>
        ensures { result.items ≡ self }
    {
        self.items
    }
}

impl<T: Copied> Copied for Items<T> {
    fn copy(&self) -> Result<Self, NoMemory> {
        let mut items = Vec::new(*self.items.allocator());
        for item in self.items.iter() {
            items.push(item.copy()?)?;
        }
        Ok(Items { items })
    }
}
