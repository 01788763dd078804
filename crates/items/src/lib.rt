//! A list that a value holds.
#![tactic(auto)]

ghost use Rattle.std.specs.Prelude.{◌≡◌, ◌∷◌, ◌++◌, ◌↔◌, [], length, IsTrue, OnErr, OnOk};

use std::alloc::AllocError;
use std::marker::Model;

/// A list of items that a value holds. Contracts see the list.
#[derive(Drop, Debug)]
pub struct Items<T> {
    items: Vec<T>,
}

impl<T> Model for Items<T> {
    ghost use Rattle.std.specs.Prelude.{List};

    ghost Value = { List T };

    ghost view = { λ l. l.items.items };
}

impl<T> Items<T> {
    /// The list of the vector's items.
    pub fn of(items: Vec<T>) -> Items<T>
        ensures list { result ≡ items.items }
    {
        Items { items }
    }

    /// The list as a vector, without memory.
    pub fn into_vec(self) -> Vec<T>
        ensures list { result.items ≡ self }
    {
        let Items { items } = self;
        items
    }

    /// The list as a slice.
    pub fn as_slice(&self) -> &[T]
        ensures list { result.now ≡ self.now }
    {
        self.items.as_slice()
    }

    /// How many items there are.
    pub fn len(&self) -> usize
        ensures count { result ≡ length self.now }
    {
        self.items.len()
    }

    /// Whether there is no item.
    pub fn is_empty(&self) -> bool
        ensures empty { IsTrue result ↔ (self.now ≡ []) }
    {
        self.items.is_empty()
    }
}

impl<T: Drop> Items<T> {
    /// Adds an item behind the others. Where memory runs out the list is as before.
    pub fn push(&mut self, item: T) -> Result<(), AllocError>
        ensures pushed { OnOk result (self.new ≡ self.old ++ item ∷ []) }
        ensures same { OnErr result (self.new ≡ self.old) }
    {
        self.items.push(item)?;
        Ok(())
    }
}
