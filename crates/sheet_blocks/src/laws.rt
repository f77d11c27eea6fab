//! What holds of the definitions.
ghost use Rattle.std.specs.Prelude.{◌≡◌, ◌++◌};
ghost use Rattle.csv.specs.Reading.{records};
ghost use Rattle.sheet_blocks.specs.Standing.{AreCut, Stands};
ghost use Rattle.sheet_blocks.specs.Sheets.{records_read};
ghost use Rattle.master_rows.specs.Sheet.{delimited};
ghost use Rattle.sheet_blocks.specs.Whole.{AreWhole};

use crate::blocks::Blocks;

/// The records of a text are those of a block of whole records, and then those of what follows it.
pub fn records_of_blocks(delimiter: u8, block: &[u8], later: &[u8])
    requires { AreWhole (delimited delimiter) block.now }
    ensures { records (delimited delimiter) (block.now ++ later.now)
        ≡ records (delimited delimiter) block.now ++ records (delimited delimiter) later.now }
{}

/// The records of what was read are those that were taken, and then those of the block.
pub fn records_that_stand(blocks: &Blocks, bytes: &[u8], taken: &[u8])
    requires stands { Stands bytes.now taken.now blocks.now }
    requires cut { AreCut blocks.now }
    ensures { records_read blocks.now.delimiter blocks.now.whole bytes.now
        ≡ records (delimited blocks.now.delimiter) taken.now
        ++ records (delimited blocks.now.delimiter) blocks.now.block }
{}
