//! Copies that may want memory.
ghost use Rattle.std.specs.Prelude.{◌≡◌, IfOk};

use crate::error::NoMemory;
use std::alloc::Global;

/// A value that can be copied, where memory is found.
pub trait Duplicate: Sized {
    /// An equal value.
    fn copy(&self) -> Result<Self, NoMemory>
        ensures copied { IfOk result (λ made. made ≡ self.now) };
}

impl Duplicate for bool {
    fn copy(&self) -> Result<bool, NoMemory> {
        Ok(*self)
    }
}

impl Duplicate for u8 {
    fn copy(&self) -> Result<u8, NoMemory> {
        Ok(*self)
    }
}

impl Duplicate for u16 {
    fn copy(&self) -> Result<u16, NoMemory> {
        Ok(*self)
    }
}

impl Duplicate for u32 {
    fn copy(&self) -> Result<u32, NoMemory> {
        Ok(*self)
    }
}

impl Duplicate for u64 {
    fn copy(&self) -> Result<u64, NoMemory> {
        Ok(*self)
    }
}

impl Duplicate for usize {
    fn copy(&self) -> Result<usize, NoMemory> {
        Ok(*self)
    }
}

impl<A: Duplicate + Drop, B: Duplicate> Duplicate for (A, B) {
    fn copy(&self) -> Result<(A, B), NoMemory> {
        let first = self.0.copy()?;
        let second = self.1.copy()?;
        Ok((first, second))
    }
}

/// Copies of all items, in their order.
pub fn copies<T: Duplicate + Drop>(alloc: Global, items: &[T]) -> Result<Vec<T>, NoMemory>
    ensures copied { IfOk result (λ made. made.items ≡ items.now) }
{
    let mut made = Vec::with_capacity(alloc, items.len())?;
    'items: for item in items {
        made.push(item.copy()?)?;
    }
    Ok(made)
}
