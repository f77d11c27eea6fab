//! A list that its copies share. A clause sees its items.
ghost use Rattle.std.specs.Prelude.{◌≡◌, IfOk, length};

use crate::duplicate::{Duplicate, copies};
use crate::error::NoMemory;
use crate::list::List;
use std::alloc::Global;
use std::fmt;
use std::marker::Model;
use std::rc::RcSlice;

/// A list that stays as it is. A copy shares its items, so it costs the same for any length.
#[derive(Drop)]
pub struct Shared<T> {
    items: RcSlice<T>,
}

/// A list is shown as its items, whoever shares them.
impl<T: fmt::Debug> fmt::Debug for Shared<T> {
    fn fmt<W: fmt::Write>(&self, f: &mut fmt::Formatter<W>) -> fmt::Result {
        fmt::Debug::fmt(self.items.as_slice(), f)
    }
}

impl<T> Model for Shared<T> {
    ghost use Rattle.std.specs.Prelude.{List};
    ghost use Rattle.std.specs.Rc.{rc_slice_items};

    ghost Value = { List T };

    ghost view = { λ s. rc_slice_items s.items };
}

impl<T> Shared<T> {
    /// The items of a list.
    pub fn of(list: List<T>) -> Result<Shared<T>, NoMemory>
    where
        T: Drop,
        ensures { IfOk result (λ made. made ≡ list) }
    {
        let items = RcSlice::from_vec(list.into_vec())?;
        Ok(Shared { items })
    }

    /// A list of copies of the items, which may be changed.
    pub fn to_list(&self, alloc: Global) -> Result<List<T>, NoMemory>
    where
        T: Duplicate + Drop,
        ensures { IfOk result (λ list. list ≡ self.now) }
    {
        let items = copies(alloc, self.items.as_slice())?;
        Ok(List::from_vec(items))
    }

    /// How many items there are.
    pub fn len(&self) -> usize
        ensures { result ≡ length self.now }
    {
        self.items.len()
    }

    /// The items as a slice.
    pub fn as_slice(&self) -> &[T]
        ensures { result.now ≡ self.now }
    {
        self.items.as_slice()
    }
}

impl<T: Drop> Duplicate for Shared<T> {
    fn copy(&self) -> Result<Shared<T>, NoMemory> {
        let items = self.items.clone()?;
        Ok(Shared { items })
    }
}
