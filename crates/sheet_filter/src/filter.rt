//! Cleaning a sheet, block by block.
ghost use Rattle.sheet_clean.specs.Setting.{IsSettingOf};
ghost use Rattle.sheet_filter.specs.Ends.{Ends, HaveRoomForAll, IsFaultless, NoneFell, world_seen};
ghost use Rattle.sheet_filter.specs.Outputs.{HaveRoom};

use crate::cleaner::Cleaner;
use crate::cleaning::Cleaning;
use crate::end::End;
use crate::outputs::Outputs;
use desk_base::{NoMemory, Sink, Source};
use fix_model::Book;
use sheet_blocks::{Blocks, BlocksFault};
use sheet_clean::Setting;
use std::alloc::Global;

/// Cleans the sheet that the source has left (RFC 4180, with the setting's delimiter) by the book's rules and masters,
/// row by row. The clean sheet has the header and each row as it was decided; the sheets of changes, conflicts and
/// dissents have their headers and a line for each. Rows count from 1. The end tells a fault of the sheet, of a read or
/// of a write, and what was written till then. `docs/definitions.md` has the notions.
pub fn clean<S: Source, W: Sink, C: Sink, B: Book<()>>(
    alloc: Global,
    setting: &Setting,
    book: &B,
    source: &mut S,
    outputs: &mut Outputs<W, C>,
) -> End
    requires { IsSettingOf (B.kit book.now) setting.now }
    ensures ended { let seen = world_seen S.left S.read_faults W.written W.write_faults C.written C.write_faults in
        Ends (B.kit book.now) setting.now (seen source.old outputs.old) (seen source.new outputs.new) result }
    ensures later { let seen = world_seen S.left S.read_faults W.written W.write_faults C.written C.write_faults in
        NoneFell (seen source.old outputs.old) (seen source.new outputs.new) }
    ensures complete { S.is_steady source.old
        → HaveRoomForAll (HaveRoom W.takes C.takes outputs.old) (B.kit book.now) setting.now (S.left source.old)
        → IsFaultless result }
{
    let mut cleaning = match Cleaning::new(alloc, book) {
        Ok(cleaning) => cleaning,
        Err(NoMemory) => return End::NoMemory,
    };
    let cleaner = Cleaner {
        alloc,
        setting,
        book,
    };
    let mut blocks = match Blocks::open(alloc, setting.delimiter, source) {
        Ok(blocks) => blocks,
        Err(fault) => return cleaning.unread(fault),
    };
    'turns: for _ in 0..u64::MAX {
        if let Err(stop) = cleaner.take(blocks.block(), &mut cleaning, outputs) {
            return cleaning.stopped(stop);
        }
        if blocks.is_whole() {
            return cleaning.done();
        }
        blocks.take();
        blocks = match blocks.fill(source) {
            Ok(blocks) => blocks,
            Err(fault) => return cleaning.unread(fault),
        };
    }
    // No sheet has so many blocks.
    End::NoMemory
}
