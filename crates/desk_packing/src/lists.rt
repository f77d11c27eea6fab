//! Lists of what is packed: the number of items, and then the items.
ghost use Rattle.std.specs.Prelude.{◌≡◌, ◌++◌, Some, None, IfOk, OnOk, IsErrOf};
ghost use Rattle.desk_packing.specs.Formats.{items_in, list};

use crate::error::{FieldFault, UnpackFault};
use crate::packs::Packs;
use crate::texts::count_of;
use desk_base::{List, Shared};
use std::alloc::Global;

impl<T: Packs + Drop> Packs for List<T> {
    ghost format = { list T.format };

    fn pack(&self, bytes: &mut Vec<u8>) -> Result<(), FieldFault> {
        pack_items(self.as_slice(), bytes)
    }

    fn unpack(alloc: Global, bytes: &[u8]) -> Result<(List<T>, &[u8]), UnpackFault> {
        let (count, following) = u32::unpack(alloc, bytes)?;
        unpack_items(alloc, count, following)
    }
}

impl<T: Packs + Drop> Packs for Shared<T> {
    ghost format = { list T.format };

    fn pack(&self, bytes: &mut Vec<u8>) -> Result<(), FieldFault> {
        pack_items(self.as_slice(), bytes)
    }

    fn unpack(alloc: Global, bytes: &[u8]) -> Result<(Shared<T>, &[u8]), UnpackFault> {
        let (items, rest) = List::unpack(alloc, bytes)?;
        Ok((Shared::of(items)?, rest))
    }
}

/// Writes the number of items and then the items, after what is there.
fn pack_items<T: Packs>(items: &[T], bytes: &mut Vec<u8>) -> Result<(), FieldFault>
    ensures packed { OnOk result (bytes.new.items ≡ bytes.old.items ++ (list T.format).print items.now) }
    ensures fits { OnOk result ((list T.format).Fits items.now) }
    ensures too_long { IsErrOf result FieldFault.TooLong → (list T.format).Fits items.now → ⊥ }
{
    let count = count_of(items.len())?;
    count.pack(bytes)?;
    'items: for item in items {
        item.pack(bytes)?;
    }
    Ok(())
}

/// Reads so many items, and answers them with the bytes after them.
fn unpack_items<T: Packs + Drop>(
    alloc: Global,
    count: u32,
    bytes: &[u8],
) -> Result<(List<T>, &[u8]), UnpackFault>
    ensures read { IfOk result (λ found. items_in T.format count bytes.now ≡ Some (found.0, found.1.now)) }
    ensures damaged { IsErrOf result UnpackFault.Damaged → items_in T.format count bytes.now ≡ None }
{
    let mut items = List::new(alloc);
    let mut left = bytes;
    'items: for _item in 0..count {
        let (item, rest) = T::unpack(alloc, left)?;
        items.push(item)?;
        left = rest;
    }
    Ok((items, left))
}
