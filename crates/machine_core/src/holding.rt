//! The book of an edition, from the shelf, or built where it is not there.
ghost use Rattle.std.specs.Prelude.{◌≡◌, ◌<◌, ◌≤◌, length, nat_eq, None, Some, IfOk, OnErr, OnOk, IsSome, slice_get};
ghost use Rattle.std.specs.Map.{lookup};
ghost use Rattle.desk_base.specs.declared.limits.TheConstants.{MAX_ENTRIES};
ghost use Rattle.desk_words.specs.Tables.{Published, published_of, rows_of};
ghost use Rattle.desk_valid.specs.Valid.{AreValid};
ghost use Rattle.fix_model.specs.Entries.{entries};
ghost use Rattle.fix_model.specs.Valid.{IsValid};
ghost use Rattle.desk_valid.specs.Bindings.{bound_at};
ghost use Rattle.machine_core.specs.Shelves.{AreHeld, IsFirst, bound_on};
ghost use Rattle.master_index.specs.Held.{brought_first, put_first};
ghost use Rattle.master_index.specs.declared.shelf.Shelved.{Shelved as ShelvedBook};

use desk_base::NoMemory;
use desk_valid::kit_of;
use desk_words::Tables;
use fix_model::Kit;
use master_index::{BuildFault, Shelf, Shelved, SortedBook};
use std::alloc::Global;

/// Has the book of an edition stand first on the shelf. Where it is held it is brought there, which succeeds whatever
/// memory there is; else it is built and put in front, where four others are held in place of the one that was used
/// longest ago. Where there is no memory the shelf is as before.
pub fn hold(alloc: Global, tables: &Tables, shelf: &mut Shelf, edition: u32) -> Result<(), NoMemory>
    requires valid { AreValid (rows_of tables.now) }
    requires edition { edition < length tables.now.editions.items }
    requires held { AreHeld (published_of (rows_of tables.now)) shelf.old }
    ensures held { AreHeld (published_of (rows_of tables.now)) shelf.new }
    ensures first { OnOk result (IsFirst edition shelf.new) }
    ensures brought { IsSome (lookup (nat_eq edition) shelf.old) → shelf.new ≡ brought_first edition shelf.old }
    ensures put { lookup (nat_eq edition) shelf.old ≡ None
        → OnOk result ((shelved : ShelvedBook) × (shelf.new ≡ put_first edition shelved shelf.old)) }
    ensures unchanged { OnErr result (shelf.new ≡ shelf.old) }
    ensures succeeds { IsSome (lookup (nat_eq edition) shelf.old) → OnErr result ⊥ }
{
    if shelf.peek(edition).is_some() {
        shelf.bring(edition);
        return Ok(());
    }
    let shelved = shelved_of(alloc, tables, edition)?;
    shelf.put(edition, shelved)
}

/// The book that stands first on the shelf, with its names. It is that of this edition.
pub fn shelved(shelf: &Shelf, edition: u32) -> &Shelved
    requires { IsFirst edition shelf.now }
    ensures first { slice_get shelf.now 0 ≡ Some (edition, result.now) }
    ensures bound { (published : Published) → AreHeld published shelf.now
        → bound_at published edition ≡ Some (bound_on result.now) }
{
    match shelf.peek(edition) {
        Some(found) => found,
        // It is held.
        None => unreachable!(),
    }
}

/// The book of an edition, with its names.
fn shelved_of(alloc: Global, tables: &Tables, edition: u32) -> Result<Shelved, NoMemory>
    requires valid { AreValid (rows_of tables.now) }
    requires edition { edition < length tables.now.editions.items }
    ensures { IfOk result (λ shelved. bound_at (published_of (rows_of tables.now)) edition ≡ Some (bound_on shelved)) }
{
    let bound = kit_of(alloc, tables, edition)?;
    let book = book_of(alloc, bound.kit)?;
    Ok(Shelved {
        book,
        names: bound.names,
    })
}

/// The book over a kit whose index is not too wide.
fn book_of(alloc: Global, kit: Kit) -> Result<SortedBook, NoMemory>
    requires valid { IsValid kit }
    requires narrow { entries kit ≤ MAX_ENTRIES }
    ensures { IfOk result (λ book. book ≡ kit) }
{
    match SortedBook::build(alloc, kit) {
        Ok(book) => Ok(book),
        Err(BuildFault::NoMemory) => Err(NoMemory),
        // The index is not too wide.
        Err(BuildFault::TooWide(_)) => unreachable!(),
    }
}
