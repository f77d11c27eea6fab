//! What holds of the definitions, for callers that reason with them.
ghost use Rattle.std.specs.Prelude.{◌≡◌, ◌≢◌, Ok, Err};
ghost use Rattle.master_rows.specs.declared.error.SheetFault.{SheetFault as FaultOf};
ghost use Rattle.master_rows.specs.Causes.{HasCauseWithin};
ghost use Rattle.master_rows.specs.Master.{IsMasterWithin};
ghost use Rattle.master_rows.specs.Sheet.{sheet_of, sheet_within};

use crate::error::SheetFault;
use crate::master::Master;

/// A sheet of so many rows at most gives nothing but masters of as many.
pub fn only_masters(most: u32, sheet: &[u8], master: &Master)
    requires { sheet_within most sheet.now ≡ Ok master.now }
    ensures { IsMasterWithin most master.now }
{}

/// Every master is given by a sheet: by the one that it is printed as.
pub fn every_master(most: u32, master: &Master)
    requires { IsMasterWithin most master.now }
    ensures { sheet_within most (sheet_of master.now) ≡ Ok master.now }
{}

/// Each refusal has its cause, whatever else is wrong with the sheet.
pub fn refusals_have_causes(most: u32, sheet: &[u8])
    ensures { (fault : FaultOf) → sheet_within most sheet.now ≡ Err fault → HasCauseWithin most sheet.now fault }
{}

/// Want of memory is no fault of a sheet.
pub fn memory_is_no_fault(most: u32, sheet: &[u8])
    ensures { sheet_within most sheet.now ≢ Err SheetFault.NoMemory }
{}
