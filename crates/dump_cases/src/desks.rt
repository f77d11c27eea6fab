//! Which desk a keeper has.
ghost use Rattle.std.specs.Prelude.{◌≡◌};

use desk_base::{List, NoMemory};
use desk_dump::dump_text;
use desk_words::Tables;
use keeper_core::{Keeper, MemKeeper};
use std::alloc::Global;
use std::test::Fail;

/// Which desk a keeper has: `restored`, that whose dump the bytes are; `new`, a new one; `other`; or `failed`, where it
/// does not load its tables.
pub fn desk_of(alloc: Global, dump: &[u8], keeper: &mut MemKeeper) -> Result<&'static str, Fail> {
    let Ok(tables) = keeper.load() else {
        return Ok("failed");
    };
    let found = dump_text(alloc, &tables);
    drop(tables);
    which(alloc, dump, found?.as_slice())
}

/// Which desk has this dump.
fn which(alloc: Global, dump: &[u8], found: &[u8]) -> Result<&'static str, Fail> {
    if found == dump {
        return Ok("restored");
    }
    let tables = Tables::empty(alloc)?;
    let fresh = dump_text(alloc, &tables);
    drop(tables);
    if found == fresh?.as_slice() {
        return Ok("new");
    }
    Ok("other")
}
