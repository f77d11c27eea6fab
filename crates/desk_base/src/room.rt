//! A list with reserved places. A clause sees its items, and how many more it takes for sure.
ghost use Rattle.std.specs.Prelude.{◌≡◌, ◌==◌, ◌+◌, ◌-◌, ◌<◌, ◌≤◌, ◌∷◌, ◌++◌, [], length, slice_get, slice_set, Some};
ghost use Rattle.std.specs.Prelude.{max, IsOk, IfOk, OnOk, OnErr};
ghost use Rattle.std.specs.Borrow.{sem};
ghost use Rattle.desk_base.specs.Lending.{LendsSlot};

use crate::duplicate::{Duplicate, copies};
use crate::error::NoMemory;
use std::alloc::Global;
use std::marker::Model;

/// A list of items, with places reserved after them.
#[derive(Debug, Drop)]
pub struct Room<T> {
    items: Vec<T>,
    spare: usize,
}

impl<T> Model for Room<T> {
    ghost use Rattle.std.specs.Prelude.{◌+◌, ◌≤◌, vec_len, vec_capacity};
    ghost use Rattle.desk_base.specs.Roomy.{Roomy, roomy_code};

    ghost Value = { Roomy T };

    ghost coded = { roomy_code T.code };

    ghost view = { λ r. record { items = r.items.items; spare = r.spare } };

    ghost invariant = { λ r. r.spare + vec_len r.items ≤ vec_capacity r.items };
}

impl<T> Room<T> {
    /// No items and no places.
    pub fn new(alloc: Global) -> Room<T>
        ensures { result ≡ record { items = []; spare = 0 } }
    {
        Room {
            items: Vec::new(alloc),
            spare: 0,
        }
    }

    /// Adds an item at the end, at a reserved place where there is one. Where there is no memory the
    /// room is as before, and the item is gone.
    pub fn push(&mut self, item: T) -> Result<(), NoMemory>
    where
        T: Drop,
        ensures pushed { OnOk result (self.new ≡ record {
          items = self.old.items ++ item ∷ [];
          spare = self.old.spare - 1;
        }) }
        ensures unchanged { OnErr result (self.new ≡ self.old) }
        ensures reserved { 0 < self.old.spare → IsOk result }
    {
        self.items.push(item)?;
        self.spare = self.spare.saturating_sub(1);
        Ok(())
    }

    /// Makes place for so many more items. Places that are there stay.
    pub fn reserve(&mut self, more: usize) -> Result<(), NoMemory>
        ensures items { self.new.items ≡ self.old.items }
        ensures reserved { OnOk result (self.new.spare ≡ max more self.old.spare) }
        ensures unchanged { OnErr result (self.new.spare ≡ self.old.spare) }
    {
        if more <= self.spare {
            return Ok(());
        }
        self.items.reserve(more)?;
        self.spare = more;
        Ok(())
    }

    /// Adds an item at a reserved place, whatever memory there is.
    pub fn push_reserved(&mut self, item: T)
        requires { 0 < self.old.spare }
        ensures { self.new ≡ record { items = self.old.items ++ item ∷ []; spare = self.old.spare - 1 } }
    {
        self.spare -= 1;
        self.items.push(item).unwrap();
    }

    /// Puts an item at a place, counted from 0, over the one that stands there.
    pub fn set(&mut self, place: usize, item: T)
    where
        T: Drop,
        requires { place < length self.old.items }
        ensures { self.new ≡ record self.old { items = slice_set self.old.items place item } }
    {
        self.items[place] = item;
    }

    /// Lends the item at a place, counted from 0.
    pub fn slot(&mut self, place: usize) -> &mut T
        requires { place < length self.old.items }
        ensures* lends { sem 𝓛 (LendsSlot T.row self.entry place result) }
        ensures item { slice_get self.old.items place ≡ Some result.now }
    {
        &mut self.items[place]
    }

    /// How many items there are.
    pub fn len(&self) -> usize
        ensures { result ≡ length self.now.items }
    {
        self.items.len()
    }

    /// Whether there are none.
    pub fn is_empty(&self) -> bool
        ensures { result ≡ (length self.now.items == 0) }
    {
        self.items.is_empty()
    }

    /// The items as a slice.
    pub fn as_slice(&self) -> &[T]
        ensures { result.now ≡ self.now.items }
    {
        self.items.as_slice()
    }

    /// The allocator that the room was made with.
    pub fn allocator(&self) -> Global {
        *self.items.allocator()
    }

    /// Hands out the items in their order.
    pub fn into_vec(self) -> Vec<T>
        ensures { result.items ≡ self.items }
    {
        self.items
    }
}

/// A copy has as many reserved places.
impl<T: Duplicate + Drop> Duplicate for Room<T> {
    fn copy(&self) -> Result<Room<T>, NoMemory> {
        let mut items = copies(self.allocator(), self.items.as_slice())?;
        items.reserve(self.spare)?;
        Ok(Room {
            items,
            spare: self.spare,
        })
    }
}
