//! For each attribute of a kit the first rule that waits for it.
ghost use Rattle.std.specs.Prelude.{IfOk};
ghost use Rattle.fix_model.specs.Valid.{IsValid};
ghost use Rattle.master_index.specs.Waits.{AreWaitsBefore};

use desk_base::{List, NoMemory};
use fix_model::{Kit, first_waiting};
use std::alloc::Global;

/// For each attribute the first rule that waits for it.
pub(crate) fn waits_of(alloc: Global, kit: &Kit) -> Result<List<u16>, NoMemory>
    requires { IsValid kit.now }
    ensures { IfOk result (AreWaitsBefore kit.now kit.now.width) }
{
    let mut waits = List::new(alloc);
    'attributes: for attribute in 0..kit.width {
        waits.push(first_waiting(kit, attribute))?;
    }
    Ok(waits)
}
