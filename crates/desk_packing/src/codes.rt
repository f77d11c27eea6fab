//! Digests, acts and stages.
ghost use Rattle.desk_packing.specs.RowFormats.{act_format, digest, stage_format};

use crate::error::{FieldFault, UnpackFault};
use crate::packs::Packs;
use crate::texts::split;
use desk_words::{Act, Digest, Stage};
use std::alloc::Global;

impl Packs for Digest {
    ghost format = { digest };

    fn pack(&self, bytes: &mut Vec<u8>) -> Result<(), FieldFault> {
        Ok(bytes.extend_from_slice(&self.bytes)?)
    }

    fn unpack(_alloc: Global, bytes: &[u8]) -> Result<(Digest, &[u8]), UnpackFault> {
        let (front, rest) = split(32, bytes)?;
        let mut found = [0; 32];
        found.copy_from_slice(front);
        Ok((Digest { bytes: found }, rest))
    }
}

impl Packs for Act {
    ghost format = { act_format };

    fn pack(&self, bytes: &mut Vec<u8>) -> Result<(), FieldFault> {
        bytes.push(*self as u8)?;
        Ok(())
    }

    fn unpack(_alloc: Global, bytes: &[u8]) -> Result<(Act, &[u8]), UnpackFault> {
        match bytes {
            [0, rest @ ..] => Ok((Act::Nothing, rest)),
            [1, rest @ ..] => Ok((Act::Clerk, rest)),
            [2, rest @ ..] => Ok((Act::Schema, rest)),
            [3, rest @ ..] => Ok((Act::Master, rest)),
            [4, rest @ ..] => Ok((Act::Rulebook, rest)),
            [5, rest @ ..] => Ok((Act::Edition, rest)),
            [6, rest @ ..] => Ok((Act::Region, rest)),
            [7, rest @ ..] => Ok((Act::Opened, rest)),
            [8, rest @ ..] => Ok((Act::Changed, rest)),
            [9, rest @ ..] => Ok((Act::Committed, rest)),
            [10, rest @ ..] => Ok((Act::Batched, rest)),
            _ => Err(UnpackFault::Damaged),
        }
    }
}

impl Packs for Stage {
    ghost format = { stage_format };

    fn pack(&self, bytes: &mut Vec<u8>) -> Result<(), FieldFault> {
        bytes.push(*self as u8)?;
        Ok(())
    }

    fn unpack(_alloc: Global, bytes: &[u8]) -> Result<(Stage, &[u8]), UnpackFault> {
        match bytes {
            [0, rest @ ..] => Ok((Stage::Active, rest)),
            [1, rest @ ..] => Ok((Stage::Committed, rest)),
            [2, rest @ ..] => Ok((Stage::Abandoned, rest)),
            _ => Err(UnpackFault::Damaged),
        }
    }
}
