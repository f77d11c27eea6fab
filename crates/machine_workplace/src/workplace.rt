//! The workplace at which requests are answered.
ghost use Rattle.std.specs.Prelude.{◌≡◌, ◌<◌, [], length, nat_eq, None, Some, IfOk, IsSome, OnErr, OnOk};
ghost use Rattle.std.specs.Map.{lookup};
ghost use Rattle.desk_words.specs.Tables.{Rows, rows_of};
ghost use Rattle.desk_valid.specs.Valid.{AreValid};
ghost use Rattle.machine_core.specs.Shelves.{IsFirst};
ghost use Rattle.machine_workplace.specs.Ready.{IsReady};
ghost use Rattle.machine_workplace.specs.Words.{AreWordsOf};
ghost use Rattle.master_index.specs.Held.{brought_first, put_first};
ghost use Rattle.master_index.specs.declared.shelf.Shelved.{Shelved as ShelvedBook};

use crate::upshots::Upshots;
use desk_base::{MAX_ATTRIBUTES, MAX_RULES, NoMemory, Text};
use desk_words::Tables;
use fix_engine::Work;
use machine_core::{hold, shelved};
use master_index::Shelf;
use std::alloc::Global;

/// The books of the editions that were used last, the room in which their rules are run, and what sessions came to. It
/// is handed on from call to call, and is ready over the tables before and after each.
#[derive(Drop)]
pub struct Workplace {
    pub alloc: Global,
    pub shelf: Shelf,
    pub room: Work,
    pub upshots: Upshots,
}

impl Workplace {
    /// A workplace with no book on its shelf, with room for any kit, where nothing is known of sessions.
    pub fn new(alloc: Global) -> Result<Workplace, NoMemory>
        ensures shelf { IfOk result (λ workplace. workplace.shelf ≡ []) }
        ensures ready { IfOk result (λ workplace. (rows : Rows) → AreValid rows → IsReady rows workplace) }
    {
        Ok(Workplace {
            alloc,
            shelf: Shelf::new(alloc)?,
            room: Work::new(alloc, MAX_ATTRIBUTES as u16, MAX_RULES as u16)?,
            upshots: Upshots::new(alloc),
        })
    }

    /// Has the book of an edition stand first on the shelf. Where it is held it is brought there, which succeeds
    /// whatever memory there is; else it is built and put in front, where four others are held in place of the one that
    /// was used longest ago. Where there is no memory the shelf is as before.
    pub fn hold(&mut self, tables: &Tables, edition: u32) -> Result<(), NoMemory>
        requires ready { IsReady (rows_of tables.now) self.old }
        requires edition { edition < length tables.now.editions.items }
        ensures ready { IsReady (rows_of tables.now) self.new }
        ensures first { OnOk result (IsFirst edition self.new.shelf) }
        ensures brought { IsSome (lookup (nat_eq edition) self.old.shelf)
            → self.new.shelf ≡ brought_first edition self.old.shelf }
        ensures put { lookup (nat_eq edition) self.old.shelf ≡ None
            → OnOk result ((shelved : ShelvedBook) × (self.new.shelf ≡ put_first edition shelved self.old.shelf)) }
        ensures unchanged { OnErr result (self.new.shelf ≡ self.old.shelf) }
        ensures succeeds { IsSome (lookup (nat_eq edition) self.old.shelf) → OnErr result ⊥ }
    {
        hold(self.alloc, tables, &mut self.shelf, edition)
    }

    /// The names of the attributes of an edition whose book stands first on the shelf.
    pub fn attributes(&self, edition: u32) -> &[Text]
        requires { IsFirst edition self.now.shelf }
        ensures { (rows : Rows) → IsReady rows self.now → AreWordsOf rows edition result.now }
    {
        shelved(&self.shelf, edition).names.attributes.as_slice()
    }
}
