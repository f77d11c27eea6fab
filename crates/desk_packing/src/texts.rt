//! Bytes after their number, and texts.
ghost use Rattle.std.specs.Prelude.{◌≡◌, ◌++◌, ◌<◌, ◌≤◌, ◌^◌, true, false, Some, None, IfOk, OnOk, IsErrOf};
ghost use Rattle.std.specs.Prelude.{option_map, length};
ghost use Rattle.desk_packing.specs.Formats.{bytes, is_text, split, text};

use crate::error::{FieldFault, UnpackFault};
use crate::packs::Packs;
use desk_base::{List, Text, TextFault};
use std::alloc::Global;

/// Writes the number of bytes and then the bytes, after what is there.
pub fn pack_bytes(body: &List<u8>, out: &mut Vec<u8>) -> Result<(), FieldFault>
    ensures packed { OnOk result (out.new.items ≡ out.old.items ++ bytes.print body.now) }
    ensures fits { OnOk result (bytes.Fits body.now) }
    ensures too_long { IsErrOf result FieldFault.TooLong → bytes.Fits body.now → ⊥ }
{
    let count = count_of(body.len())?;
    count.pack(out)?;
    Ok(out.extend_from_slice(body.as_slice())?)
}

/// A number of items as it is packed.
pub fn count_of(count: usize) -> Result<u32, FieldFault>
    ensures count { IfOk result (λ made. made ≡ count) }
    ensures fits { OnOk result (count < 2 ^ 32) }
    ensures too_long { IsErrOf result FieldFault.TooLong → 2 ^ 32 ≤ count }
{
    match u32::try_from(count) {
        Ok(count) => Ok(count),
        Err(_) => Err(FieldFault::TooLong),
    }
}

/// Reads bytes after their number, and answers them with the bytes after them.
pub fn unpack_bytes(alloc: Global, packed: &[u8]) -> Result<(List<u8>, &[u8]), UnpackFault>
    ensures read { IfOk result (λ found. bytes.parse packed.now ≡ Some (found.0, found.1.now)) }
    ensures damaged { IsErrOf result UnpackFault.Damaged → bytes.parse packed.now ≡ None }
{
    let (count, following) = u32::unpack(alloc, packed)?;
    let (body, rest) = split(count as usize, following)?;
    Ok((List::from_vec(Vec::from_slice(alloc, body)?), rest))
}

/// So many bytes in front, and those after them.
pub fn split(count: usize, bytes: &[u8]) -> Result<(&[u8], &[u8]), UnpackFault>
    ensures read { IfOk result (λ found. split count bytes.now ≡ Some (found.0.now, found.1.now)) }
    ensures length { IfOk result (λ found. length found.0.now ≡ count) }
    ensures damaged { IsErrOf result UnpackFault.Damaged → split count bytes.now ≡ None }
{
    if count > bytes.len() {
        return Err(UnpackFault::Damaged);
    }
    Ok(bytes.split_at(count))
}

impl Packs for Text {
    ghost format = { text };

    fn pack(&self, bytes: &mut Vec<u8>) -> Result<(), FieldFault> {
        let content = self.as_str().as_bytes();
        let count = content.len() as u16;
        count.pack(bytes)?;
        Ok(bytes.extend_from_slice(content)?)
    }

    fn unpack(alloc: Global, bytes: &[u8]) -> Result<(Text, &[u8]), UnpackFault> {
        let (count, following) = u16::unpack(alloc, bytes)?;
        let (content, rest) = split(count as usize, following)?;
        Ok((text_of(alloc, content)?, rest))
    }
}

/// The text of all these bytes.
fn text_of(alloc: Global, bytes: &[u8]) -> Result<Text, UnpackFault>
    ensures text { IfOk result (λ text. text ≡ bytes.now) }
    ensures is_text { OnOk result (is_text bytes.now ≡ true) }
    ensures damaged { IsErrOf result UnpackFault.Damaged → is_text bytes.now ≡ false }
{
    match Text::new(alloc, bytes) {
        Ok(text) => Ok(text),
        Err(TextFault::NoMemory) => Err(UnpackFault::NoMemory),
        Err(TextFault::TooLong) => Err(UnpackFault::Damaged),
        Err(TextFault::NotUtf8) => Err(UnpackFault::Damaged),
    }
}
