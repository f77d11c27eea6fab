//! For each rule of a kit the first one that shares its look.
ghost use Rattle.std.specs.Prelude.{length, IfOk};
ghost use Rattle.fix_model.specs.Valid.{IsValid};
ghost use Rattle.master_index.specs.Earliest.{ShareLooksBefore};

use desk_base::{List, NoMemory};
use fix_model::{Kit, earliest_for};
use std::alloc::Global;

/// For each rule the first one that shares its look.
pub(crate) fn earliest_of(alloc: Global, kit: &Kit) -> Result<List<u16>, NoMemory>
    requires { IsValid kit.now }
    ensures { IfOk result (ShareLooksBefore kit.now (length kit.now.rules)) }
{
    let mut earliest = List::new(alloc);
    'rules: for rule in 0..kit.rules.len() as u16 {
        earliest.push(earliest_for(kit, rule))?;
    }
    Ok(earliest)
}
