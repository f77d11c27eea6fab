//! Numbers, the greatest byte first, and flags.
ghost use Rattle.desk_packing.specs.Formats.{flag, u16, u32, u64};

use crate::error::{FieldFault, UnpackFault};
use crate::packs::Packs;
use std::alloc::Global;

impl Packs for u16 {
    ghost format = { u16 };

    fn pack(&self, bytes: &mut Vec<u8>) -> Result<(), FieldFault> {
        Ok(bytes.extend_from_slice(&self.to_be_bytes())?)
    }

    fn unpack(_alloc: Global, bytes: &[u8]) -> Result<(u16, &[u8]), UnpackFault> {
        match bytes {
            [first, second, rest @ ..] => Ok((u16::from_be_bytes([*first, *second]), rest)),
            _ => Err(UnpackFault::Damaged),
        }
    }
}

impl Packs for u32 {
    ghost format = { u32 };

    fn pack(&self, bytes: &mut Vec<u8>) -> Result<(), FieldFault> {
        Ok(bytes.extend_from_slice(&self.to_be_bytes())?)
    }

    fn unpack(_alloc: Global, bytes: &[u8]) -> Result<(u32, &[u8]), UnpackFault> {
        match bytes {
            [first, second, third, fourth, rest @ ..] => {
                let number = u32::from_be_bytes([*first, *second, *third, *fourth]);
                Ok((number, rest))
            }
            _ => Err(UnpackFault::Damaged),
        }
    }
}

impl Packs for u64 {
    ghost format = { u64 };

    fn pack(&self, bytes: &mut Vec<u8>) -> Result<(), FieldFault> {
        Ok(bytes.extend_from_slice(&self.to_be_bytes())?)
    }

    fn unpack(_alloc: Global, bytes: &[u8]) -> Result<(u64, &[u8]), UnpackFault> {
        match bytes {
            [
                first,
                second,
                third,
                fourth,
                fifth,
                sixth,
                seventh,
                eighth,
                rest @ ..,
            ] => {
                let number = u64::from_be_bytes([
                    *first, *second, *third, *fourth, *fifth, *sixth, *seventh, *eighth,
                ]);
                Ok((number, rest))
            }
            _ => Err(UnpackFault::Damaged),
        }
    }
}

impl Packs for bool {
    ghost format = { flag };

    fn pack(&self, bytes: &mut Vec<u8>) -> Result<(), FieldFault> {
        bytes.push(if *self { 1 } else { 0 })?;
        Ok(())
    }

    fn unpack(_alloc: Global, bytes: &[u8]) -> Result<(bool, &[u8]), UnpackFault> {
        match bytes {
            [0, rest @ ..] => Ok((false, rest)),
            [1, rest @ ..] => Ok((true, rest)),
            _ => Err(UnpackFault::Damaged),
        }
    }
}
