//! A keeper over a database in memory, and the rows that stand there.
ghost use Rattle.std.specs.Prelude.{◌≡◌, false};

use crate::lines::{lines_of, rows_in};
use crate::sent::Sending;
use desk_cases::Answer;
use desk_packing::PackedRow;
use desk_trials::{Told, call_words};
use keeper_sqlite::SqlTables;
use row_store::{Footing, all_rows, footing_of, make_table, put_rows};
use sqlite::{Alter, Connection, MemStore};
use std::alloc::Global;
use std::mem;
use std::test::Fail;

/// A keeper over a database in memory. It has none only while it is renewed.
#[derive(Drop)]
pub struct Stored {
    keeper: Option<SqlTables<MemStore>>,
}

impl Stored {
    /// A keeper over a new database in which these rows stand, or nothing where there is no text of rows.
    pub fn holding(alloc: Global, rows: Option<&str>) -> Result<Stored, Fail> {
        let mut conn = Connection::open_in_memory(alloc)?;
        match stand(alloc, &mut conn, rows) {
            Ok(()) => Ok(Stored {
                keeper: Some(SqlTables::over(conn)),
            }),
            Err(fail) => {
                drop(conn);
                Err(fail)
            }
        }
    }

    /// What the words of a text tell, where the link has this input.
    pub fn call(&mut self, alloc: Global, words: &[u8], input: &[u8]) -> Result<Told, Fail> {
        match &mut self.keeper {
            Some(keeper) => call_words(alloc, keeper, words, input),
            None => Err(no_keeper()),
        }
    }

    /// What a stream of these bytes is answered.
    pub fn serve(&mut self, alloc: Global, input: &[u8]) -> Result<Told, Fail> {
        self.call(alloc, b"pipe", input)
    }

    /// Adds whether the tables are those that a case wants.
    pub fn add_tables(&mut self, sending: Sending<'_>, answer: &mut Answer) -> Result<(), Fail> {
        match &mut self.keeper {
            Some(keeper) => sending.script.add_tables(sending.case, keeper, answer),
            None => Err(no_keeper()),
        }
    }

    /// Takes a new keeper over the same database, and tells the rows that stand there.
    pub fn renew(&mut self, alloc: Global) -> Result<String, Fail> {
        let Some(keeper) = self.keeper.take() else {
            return Err(no_keeper());
        };
        let mut conn = keeper.into_connection();
        let rows = rows_of(alloc, &mut conn);
        drop(mem::replace(&mut self.keeper, Some(SqlTables::over(conn))));
        rows
    }
}

fn no_keeper() -> Fail {
    Fail::new("a keeper is gone")
}

/// Makes the table in a database in which nothing stands, and puts the rows of a text; nothing where there is no text.
pub fn stand<S: Alter>(
    alloc: Global,
    conn: &mut Connection<S>,
    rows: Option<&str>,
) -> Result<(), Fail>
    requires { conn.old.in_transaction ≡ false }
    ensures { conn.new.in_transaction ≡ false }
{
    let Some(rows) = rows else {
        return Ok(());
    };
    let rows = rows_in(alloc, rows)?;
    make(conn)?;
    put(conn, rows.as_slice())
}

fn make<S: Alter>(conn: &mut Connection<S>) -> Result<(), Fail>
    requires { conn.old.in_transaction ≡ false }
    ensures { conn.new.in_transaction ≡ false }
{
    match footing_of(conn) {
        Ok(Footing::Absent) => match make_table(conn) {
            Ok(()) => Ok(()),
            Err(_) => Err(Fail::new("the table was not made")),
        },
        _ => Err(Fail::new("a database is not blank")),
    }
}

fn put<S: Alter>(conn: &mut Connection<S>, rows: &[PackedRow]) -> Result<(), Fail>
    requires { conn.old.in_transaction ≡ false }
    ensures { conn.new.in_transaction ≡ false }
{
    match put_rows(conn, rows) {
        Ok(()) => Ok(()),
        Err(_) => Err(Fail::new("the rows of a case were not put")),
    }
}

/// The rows of the table, as lines; none where nothing stands.
pub fn rows_of<S: Alter>(alloc: Global, conn: &mut Connection<S>) -> Result<String, Fail>
    requires { conn.old.in_transaction ≡ false }
    ensures { conn.new.in_transaction ≡ false }
{
    match footing_of(conn) {
        Ok(Footing::Absent) => Ok(String::new(alloc)),
        Ok(Footing::Desk) => match all_rows(conn) {
            Ok(rows) => lines_of(alloc, rows.as_slice()),
            Err(_) => Err(Fail::new("the rows of the table were not read")),
        },
        _ => Err(Fail::new("something else stands in the place of the table")),
    }
}
