//! A list that answers want of memory. A clause sees its items.
ghost use Rattle.std.specs.Prelude.{◌≡◌, ◌==◌, ◌<◌, ◌∷◌, ◌++◌, [], length, slice_set, IfOk, OnOk, OnErr};

use crate::duplicate::{Duplicate, copies};
use crate::error::NoMemory;
use std::alloc::Global;
use std::marker::Model;

/// A list of items.
#[derive(Debug, Drop)]
pub struct List<T> {
    items: Vec<T>,
}

impl<T> Model for List<T> {
    ghost use Rattle.std.specs.Prelude.{List};

    ghost Value = { List T };

    ghost view = { λ l. l.items.items };
}

impl<T> List<T> {
    /// The empty list.
    pub fn new(alloc: Global) -> List<T>
        ensures { result ≡ [] }
    {
        List {
            items: Vec::new(alloc),
        }
    }

    /// The empty list, with room for so many items.
    pub fn with_capacity(alloc: Global, count: usize) -> Result<List<T>, NoMemory>
        ensures { IfOk result (λ made. made ≡ []) }
    {
        let items = Vec::with_capacity(alloc, count)?;
        Ok(List { items })
    }

    /// The list of a vector's items.
    pub fn from_vec(items: Vec<T>) -> List<T>
        ensures { result ≡ items.items }
    {
        List { items }
    }

    /// Adds an item at the end. Where there is no memory the list is as before, and the item is gone.
    pub fn push(&mut self, item: T) -> Result<(), NoMemory>
    where
        T: Drop,
        ensures pushed { OnOk result (self.new ≡ self.old ++ item ∷ []) }
        ensures unchanged { OnErr result (self.new ≡ self.old) }
    {
        self.items.push(item)?;
        Ok(())
    }

    /// Puts an item at a place, counted from 0, over the one that stands there.
    pub fn set(&mut self, place: usize, item: T)
    where
        T: Drop,
        requires { place < length self.old }
        ensures { self.new ≡ slice_set self.old place item }
    {
        self.items[place] = item;
    }

    /// How many items there are.
    pub fn len(&self) -> usize
        ensures { result ≡ length self.now }
    {
        self.items.len()
    }

    /// Whether there are none.
    pub fn is_empty(&self) -> bool
        ensures { result ≡ (length self.now == 0) }
    {
        self.items.is_empty()
    }

    /// The items as a slice.
    pub fn as_slice(&self) -> &[T]
        ensures { result.now ≡ self.now }
    {
        self.items.as_slice()
    }

    /// The allocator that the list was made with.
    pub fn allocator(&self) -> Global {
        *self.items.allocator()
    }

    /// Hands out the items in their order.
    pub fn into_vec(self) -> Vec<T>
        ensures { result.items ≡ self }
    {
        self.items
    }
}

impl<T: Duplicate + Drop> Duplicate for List<T> {
    fn copy(&self) -> Result<List<T>, NoMemory> {
        let items = copies(self.allocator(), self.items.as_slice())?;
        Ok(List { items })
    }
}
