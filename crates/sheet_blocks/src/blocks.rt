//! Blocks of whole records.
ghost use Rattle.std.specs.Prelude.{◌≡◌, ◌≤◌, ◌++◌, ◌∷◌, [], false, IfOk, IsErrOf, drop, length};
ghost use Rattle.desk_base.specs.Faults.{Rose, HasTaken};
ghost use Rattle.sheet_blocks.specs.Standing.{AreCut, Grows, IsOpened};
ghost use Rattle.sheet_blocks.specs.Front.{IsPartOfMark};
ghost use Rattle.sheet_blocks.specs.Kept.{Follows, IsCut, IsKept};
ghost use Rattle.csv.specs.Reading.{strip_bom};
ghost use Rattle.sheet_blocks.specs.Sheets.{IsDelimiter};
ghost use Rattle.std.specs.Io.KnownBytes.{Keeps};

use crate::fault::BlocksFault;
use crate::front::{Front, after_mark, front_of};
use crate::place::Place;
use desk_base::{NoMemory, Source};
use std::alloc::Global;
use std::marker::Model;

/// How many bytes a read asks for.
const PIECE: usize = 16_384;

/// The bytes of a sheet that were read and not taken: a block of whole records, and the beginning of one.
#[derive(Debug, Drop)]
pub struct Blocks {
    delimiter: u8,
    kept: Kept,
    whole: bool,
    piece: Vec<u8>,
}

/// A line feed and a block of whole records; the bytes of a record that was begun; and where a reader stands after
/// them.
#[derive(Debug, Drop)]
struct Kept {
    block: Vec<u8>,
    begun: Vec<u8>,
    place: Place,
}

impl Model for Blocks {
    ghost use Rattle.std.specs.Prelude.{◌≡◌, length, drop};
    ghost use Rattle.sheet_blocks.specs.Standing.{BlocksSeen, blocks_seen_code};
    ghost use Rattle.sheet_blocks.specs.Kept.{IsKept};

    ghost Value = { BlocksSeen };

    ghost coded = { blocks_seen_code };

    ghost view = { λ b. record {
      delimiter = b.delimiter;
      block = drop 1 b.kept.block.items;
      begun = b.kept.begun.items;
      whole = b.whole;
    } };

    ghost invariant = { λ b. IsKept b.delimiter b.kept b.whole × (length b.piece.items ≡ 16384) };
}

impl Blocks {
    /// The blocks of the sheet that the source has left, after a byte order mark. Where a read fails, no line end was
    /// read before.
    pub fn open<S: Source>(
        alloc: Global,
        delimiter: u8,
        source: &mut S,
    ) -> Result<Blocks, BlocksFault>
        requires { IsDelimiter delimiter }
        ensures opened { IfOk result (λ blocks.
            IsOpened delimiter (S.left source.old) (S.left source.new) blocks) }
        ensures part { IsErrOf result BlocksFault.Failed → IsPartOfMark (S.left source.old) (S.left source.new) }
        ensures lost { IsErrOf result BlocksFault.NoMemory → HasTaken (S.left source.old) (S.left source.new) }
        ensures cause { IsErrOf result BlocksFault.Failed
            → Rose (S.read_faults source.old) (S.read_faults source.new) }
        ensures later { S.read_faults source.old ≤ S.read_faults source.new }
        ensures steady { S.is_steady source.old
            → (¬ IsErrOf result BlocksFault.Failed) × S.is_steady source.new }
    {
        let front = front_of(alloc, source)?;
        Ok(Blocks::of_front(alloc, delimiter, front)?)
    }

    /// The blocks of a sheet of which this front was read.
    fn of_front(alloc: Global, delimiter: u8, front: Front) -> Result<Blocks, NoMemory>
        requires { IsDelimiter delimiter }
        ensures text { IfOk result (λ blocks. blocks.block ++ blocks.begun ≡ strip_bom front.bytes.items) }
        ensures whole { IfOk result (λ blocks. blocks.whole ≡ front.whole) }
        ensures delimiter_is { IfOk result (λ blocks. blocks.delimiter ≡ delimiter) }
    {
        let piece = piece_of(alloc)?;
        let kept = kept_of(alloc, delimiter, after_mark(front.bytes.as_slice()))?;
        blocks_of(delimiter, kept, front.whole, piece)
    }

    /// Reads the next bytes, or none where the sheet was read to its end.
    pub fn fill<S: Source>(self, source: &mut S) -> Result<Blocks, BlocksFault>
        ensures grown { IfOk result (λ blocks. Grows (S.left source.old) (S.left source.new) self blocks) }
        ensures kept { IsErrOf result BlocksFault.Failed → Keeps (S.left source.old) (S.left source.new) }
        ensures lost { IsErrOf result BlocksFault.NoMemory → HasTaken (S.left source.old) (S.left source.new) }
        ensures cause { IsErrOf result BlocksFault.Failed
            → Rose (S.read_faults source.old) (S.read_faults source.new) }
        ensures later { S.read_faults source.old ≤ S.read_faults source.new }
        ensures steady { S.is_steady source.old
            → (¬ IsErrOf result BlocksFault.Failed) × S.is_steady source.new }
    {
        if self.whole {
            return Ok(self);
        }
        let Blocks {
            delimiter,
            kept,
            mut piece,
            ..
        } = self;
        let count = source.read(piece.as_mut_slice())?;
        let kept = kept.follow(delimiter, &piece[..count])?;
        Ok(blocks_of(delimiter, kept, count == 0, piece)?)
    }

    /// A line feed, which a reader of CSV passes over, and then the block: so no mark is seen at its front.
    pub fn block(&self) -> &[u8]
        ensures block { result.now ≡ 10 ∷ self.now.block }
        ensures cut { AreCut self.now }
    {
        self.kept.block.as_slice()
    }

    /// Whether the sheet was read to its end, so that the block is all that is left of it.
    pub fn is_whole(&self) -> bool
        ensures { result ≡ self.now.whole }
    {
        self.whole
    }

    /// Takes the block, once its records were read.
    pub fn take(&mut self)
        ensures { self.new ≡ record self.old { block = [] } }
    {
        self.kept.block.truncate(1);
    }
}

/// The blocks of what is kept; at the end of a sheet the record that was begun ends there.
fn blocks_of(delimiter: u8, mut kept: Kept, whole: bool, piece: Vec<u8>) -> Result<Blocks, NoMemory>
    requires kept { IsKept delimiter kept false }
    requires room { length piece.items ≡ 16384 }
    ensures text { IfOk result (λ blocks.
        blocks.block ++ blocks.begun ≡ drop 1 kept.block.items ++ kept.begun.items) }
    ensures whole { IfOk result (λ blocks. blocks.whole ≡ whole) }
    ensures delimiter_is { IfOk result (λ blocks. blocks.delimiter ≡ delimiter) }
{
    if whole {
        kept.block.append(&mut kept.begun)?;
    }
    Ok(Blocks {
        delimiter,
        kept,
        whole,
        piece,
    })
}

/// Room for the bytes of a read.
fn piece_of(alloc: Global) -> Result<Vec<u8>, NoMemory>
    ensures { IfOk result (λ piece. length piece.items ≡ 16384) }
{
    Ok(vec![in alloc; 0u8; PIECE]?)
}

/// What is kept of the first bytes of a sheet.
fn kept_of(alloc: Global, delimiter: u8, bytes: &[u8]) -> Result<Kept, NoMemory>
    requires { IsDelimiter delimiter }
    ensures kept { IfOk result (λ kept. IsKept delimiter kept false) }
    ensures text { IfOk result (λ kept. drop 1 kept.block.items ++ kept.begun.items ≡ bytes.now) }
{
    let mut block = Vec::new(alloc);
    block.push(b'\n')?;
    let kept = Kept {
        block,
        begun: Vec::new(alloc),
        place: Place::Start,
    };
    kept.follow(delimiter, bytes)
}

impl Kept {
    /// What is kept after some bytes more.
    fn follow(mut self, delimiter: u8, bytes: &[u8]) -> Result<Kept, NoMemory>
        requires delimiter { IsDelimiter delimiter }
        requires cut { IsCut delimiter self }
        ensures follows { IfOk result (λ kept. Follows delimiter self bytes.now kept) }
    {
        'bytes: for byte in bytes {
            if self.place.ends_line(*byte) {
                self.block.extend_from_slice(self.begun.as_slice())?;
                self.block.push(*byte)?;
                self.begun.clear();
            } else {
                self.begun.push(*byte)?;
            }
            self.place = self.place.next(delimiter, *byte);
        }
        Ok(self)
    }
}
