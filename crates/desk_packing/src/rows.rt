//! The rows of the nine tables: the fields of each in their order.
ghost use Rattle.std.specs.Prelude.{◌≡◌, Some, None, IfOk, IsErrOf};
ghost use Rattle.desk_packing.specs.Formats.{whole};
ghost use Rattle.desk_packing.specs.RowFormats.{batch, clerk, committed, edition, old_edition, region, text_row};
ghost use Rattle.desk_packing.specs.RowFormats.{region_format, rulebook, session};

use crate::error::{FieldFault, UnpackFault};
use crate::packs::Packs;
use crate::texts::{pack_bytes, unpack_bytes};
use desk_base::{List, Shared, Text};
use desk_words::{
    Act, BatchRow, ClerkRow, Digest, EditionRow, RecordRow, RegionRow, RulebookRow, SessionRow,
    Stage, TextRow,
};
use fix_model::Region;
use std::alloc::Global;

impl Packs for ClerkRow {
    ghost format = { clerk };

    fn pack(&self, bytes: &mut Vec<u8>) -> Result<(), FieldFault> {
        self.name.pack(bytes)?;
        self.last.pack(bytes)?;
        self.digest.pack(bytes)?;
        self.act.pack(bytes)?;
        self.target.pack(bytes)
    }

    fn unpack(alloc: Global, bytes: &[u8]) -> Result<(ClerkRow, &[u8]), UnpackFault> {
        let (name, rest) = Text::unpack(alloc, bytes)?;
        let (last, rest) = u64::unpack(alloc, rest)?;
        let (digest, rest) = Digest::unpack(alloc, rest)?;
        let (act, rest) = Act::unpack(alloc, rest)?;
        let (target, rest) = u32::unpack(alloc, rest)?;
        let row = ClerkRow {
            name,
            last,
            digest,
            act,
            target,
        };
        Ok((row, rest))
    }
}

impl Packs for TextRow {
    ghost format = { text_row };

    fn pack(&self, bytes: &mut Vec<u8>) -> Result<(), FieldFault> {
        self.name.pack(bytes)?;
        self.version.pack(bytes)?;
        pack_bytes(&self.body, bytes)
    }

    fn unpack(alloc: Global, bytes: &[u8]) -> Result<(TextRow, &[u8]), UnpackFault> {
        let (name, rest) = Text::unpack(alloc, bytes)?;
        let (version, rest) = u32::unpack(alloc, rest)?;
        let (body, rest) = unpack_bytes(alloc, rest)?;
        let row = TextRow {
            name,
            version,
            body,
        };
        Ok((row, rest))
    }
}

impl Packs for RulebookRow {
    ghost format = { rulebook };

    fn pack(&self, bytes: &mut Vec<u8>) -> Result<(), FieldFault> {
        self.name.pack(bytes)?;
        self.version.pack(bytes)?;
        self.schema.pack(bytes)?;
        pack_bytes(&self.body, bytes)
    }

    fn unpack(alloc: Global, bytes: &[u8]) -> Result<(RulebookRow, &[u8]), UnpackFault> {
        let (name, rest) = Text::unpack(alloc, bytes)?;
        let (version, rest) = u32::unpack(alloc, rest)?;
        let (schema, rest) = u32::unpack(alloc, rest)?;
        let (body, rest) = unpack_bytes(alloc, rest)?;
        let row = RulebookRow {
            name,
            version,
            schema,
            body,
        };
        Ok((row, rest))
    }
}

impl Packs for EditionRow {
    ghost format = { edition };

    fn pack(&self, bytes: &mut Vec<u8>) -> Result<(), FieldFault> {
        self.name.pack(bytes)?;
        self.version.pack(bytes)?;
        self.rulebook.pack(bytes)?;
        self.masters.pack(bytes)?;
        self.folded.pack(bytes)
    }

    fn unpack(alloc: Global, bytes: &[u8]) -> Result<(EditionRow, &[u8]), UnpackFault> {
        let (name, rest) = Text::unpack(alloc, bytes)?;
        let (version, rest) = u32::unpack(alloc, rest)?;
        let (rulebook, rest) = u32::unpack(alloc, rest)?;
        let (masters, rest) = List::<u32>::unpack(alloc, rest)?;
        let (folded, rest) = List::<u16>::unpack(alloc, rest)?;
        let row = EditionRow {
            name,
            version,
            rulebook,
            masters,
            folded,
        };
        Ok((row, rest))
    }
}

/// Reads an edition of which these are all the bytes, as it was packed before editions had folded attributes.
pub fn unpack_old_edition(alloc: Global, bytes: &[u8]) -> Result<EditionRow, UnpackFault>
    ensures read { IfOk result (λ row. whole old_edition bytes.now ≡ Some row) }
    ensures damaged { IsErrOf result UnpackFault.Damaged → whole old_edition bytes.now ≡ None }
{
    let (name, rest) = Text::unpack(alloc, bytes)?;
    let (version, rest) = u32::unpack(alloc, rest)?;
    let (rulebook, rest) = u32::unpack(alloc, rest)?;
    let (masters, rest) = List::<u32>::unpack(alloc, rest)?;
    if !rest.is_empty() {
        return Err(UnpackFault::Damaged);
    }
    Ok(EditionRow {
        name,
        version,
        rulebook,
        masters,
        folded: List::new(alloc),
    })
}

impl Packs for Region {
    ghost format = { region_format };

    fn pack(&self, bytes: &mut Vec<u8>) -> Result<(), FieldFault> {
        self.attrs.pack(bytes)?;
        self.rows.pack(bytes)
    }

    fn unpack(alloc: Global, bytes: &[u8]) -> Result<(Region, &[u8]), UnpackFault> {
        let (attrs, rest) = List::<u16>::unpack(alloc, bytes)?;
        let (rows, rest) = List::<List<Text>>::unpack(alloc, rest)?;
        Ok((Region { attrs, rows }, rest))
    }
}

impl Packs for RegionRow {
    ghost format = { region };

    fn pack(&self, bytes: &mut Vec<u8>) -> Result<(), FieldFault> {
        self.edition.pack(bytes)?;
        self.region.pack(bytes)
    }

    fn unpack(alloc: Global, bytes: &[u8]) -> Result<(RegionRow, &[u8]), UnpackFault> {
        let (edition, rest) = u32::unpack(alloc, bytes)?;
        let (region, rest) = Region::unpack(alloc, rest)?;
        Ok((RegionRow { edition, region }, rest))
    }
}

impl Packs for SessionRow {
    ghost format = { session };

    fn pack(&self, bytes: &mut Vec<u8>) -> Result<(), FieldFault> {
        self.edition.pack(bytes)?;
        self.typed.pack(bytes)?;
        self.confirmed.pack(bytes)?;
        self.stage.pack(bytes)?;
        self.batch.pack(bytes)
    }

    fn unpack(alloc: Global, bytes: &[u8]) -> Result<(SessionRow, &[u8]), UnpackFault> {
        let (edition, rest) = u32::unpack(alloc, bytes)?;
        let (typed, rest) = Shared::<Text>::unpack(alloc, rest)?;
        let (confirmed, rest) = Shared::<bool>::unpack(alloc, rest)?;
        let (stage, rest) = Stage::unpack(alloc, rest)?;
        let (batch, rest) = u32::unpack(alloc, rest)?;
        let row = SessionRow {
            edition,
            typed,
            confirmed,
            stage,
            batch,
        };
        Ok((row, rest))
    }
}

impl Packs for RecordRow {
    ghost format = { committed };

    fn pack(&self, bytes: &mut Vec<u8>) -> Result<(), FieldFault> {
        self.session.pack(bytes)?;
        self.texts.pack(bytes)?;
        self.certain.pack(bytes)
    }

    fn unpack(alloc: Global, bytes: &[u8]) -> Result<(RecordRow, &[u8]), UnpackFault> {
        let (session, rest) = u32::unpack(alloc, bytes)?;
        let (texts, rest) = List::<Text>::unpack(alloc, rest)?;
        let (certain, rest) = bool::unpack(alloc, rest)?;
        let row = RecordRow {
            session,
            texts,
            certain,
        };
        Ok((row, rest))
    }
}

impl Packs for BatchRow {
    ghost format = { batch };

    fn pack(&self, bytes: &mut Vec<u8>) -> Result<(), FieldFault> {
        self.edition.pack(bytes)?;
        self.first.pack(bytes)?;
        self.count.pack(bytes)
    }

    fn unpack(alloc: Global, bytes: &[u8]) -> Result<(BatchRow, &[u8]), UnpackFault> {
        let (edition, rest) = u32::unpack(alloc, bytes)?;
        let (first, rest) = u32::unpack(alloc, rest)?;
        let (count, rest) = u32::unpack(alloc, rest)?;
        let row = BatchRow {
            edition,
            first,
            count,
        };
        Ok((row, rest))
    }
}
