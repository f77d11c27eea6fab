//! The desks from which cases begin: a new one, or the one that an earlier case has left.
ghost use Rattle.std.specs.Prelude.{IfOk};
ghost use Rattle.desk_words.specs.Tables.{AreTables, rows_of};

use desk_base::NoMemory;
use desk_cases::Case;
use desk_words::Tables;
use keeper_core::{Keeper, MemKeeper};
use std::alloc::Global;
use std::test::Fail;

/// The keepers that cases have left, with the names that these gave.
#[derive(Drop)]
pub struct Beginnings {
    left: Vec<Left>,
}

#[derive(Drop)]
struct Left {
    name: String,
    keeper: MemKeeper,
}

impl Beginnings {
    /// No case was tried yet.
    pub fn new(alloc: Global) -> Beginnings {
        Beginnings {
            left: Vec::new(alloc),
        }
    }

    /// The tables from which a case begins: those of a new desk, or those of the desk that its part `from` names.
    pub fn tables(&mut self, alloc: Global, case: &Case) -> Result<Tables, Fail>
        ensures { IfOk result (λ tables. AreTables (rows_of tables)) }
    {
        match case.text("from") {
            Some(name) => self.tables_of(name),
            None => Ok(new_tables(alloc)?),
        }
    }

    /// The tables that were left last under this name.
    fn tables_of(&mut self, name: &str) -> Result<Tables, Fail>
        ensures { IfOk result (λ tables. AreTables (rows_of tables)) }
    {
        for left in self.left.iter_mut().rev() {
            if left.name.as_str() == name {
                return Ok(left.keeper.load()?);
            }
        }
        Err(Fail::new("a case begins from a desk that no earlier case names"))
    }

    /// Keeps what a case has left, where its part `named` names it.
    pub fn keep(&mut self, alloc: Global, case: &Case, keeper: MemKeeper) -> Result<(), Fail> {
        let Some(name) = case.text("named") else {
            drop(keeper);
            return Ok(());
        };
        let Ok(name) = String::from_str(alloc, name) else {
            drop(keeper);
            return Err(Fail::new("there was no memory"));
        };
        Ok(self.left.push(Left { name, keeper })?)
    }
}

/// The tables of a new desk.
fn new_tables(alloc: Global) -> Result<Tables, NoMemory>
    ensures { IfOk result (λ tables. AreTables (rows_of tables)) }
{
    Tables::empty(alloc)
}
