//! Derived rows promise a certain fix.
//!
//! `specs/Derivations.antt` says which rows are given. What holds of a derived row stands in the laws of
//! `region_derive`.
ghost use Rattle.std.specs.Prelude.{◌≢◌, ℕ, List, []};
ghost use Rattle.desk_words.specs.declared.change.Change.{Change as ChangeOf};
ghost use Rattle.desk_words.specs.declared.command.Ticket.{Ticket as TicketOf};
ghost use Rattle.desk_words.specs.declared.reply.DerivedSheet.{DerivedSheet as SheetOf};
ghost use Rattle.desk_words.specs.declared.reply.Reply.{Reply as ReplyOf};
ghost use Rattle.desk_words.specs.Tables.{published_of, rows_of};
ghost use Rattle.desk_valid.specs.Valid.{AreValid};
ghost use Rattle.machine_core.specs.Machine.{IsStep};
ghost use Rattle.machine_laws.specs.Derivations.{AddsDerived, IsDerivedSheet};

use desk_words::{Command, DeskLook, Reply, StewardWork, Tables};

/// The rows of a derived sheet are exactly those that are derived over the edition's kit, and the texts of these rows
/// become a region, from the place on that was asked for.
pub fn derived_rows_are_certain(tables: &Tables)
    requires { AreValid (rows_of tables.now) }
    ensures sheet { (edition : List ℕ) (version : ℕ) (master : List ℕ) (pairs : List (List ℕ × List ℕ))
        (sheet : SheetOf) (changes : List ChangeOf)
        → IsStep (rows_of tables.now) (Command.Desk (DeskLook.Derive edition version master pairs))
        (Reply.Derived sheet) changes
        → IsDerivedSheet (published_of (rows_of tables.now)) edition version master pairs sheet }
    ensures region { (ticket : TicketOf) (edition : List ℕ) (version : ℕ) (master : List ℕ)
        (pairs : List (List ℕ × List ℕ)) (place : ℕ) (answer : ReplyOf) (changes : List ChangeOf)
        → IsStep (rows_of tables.now) (Command.Steward ticket (StewardWork.AddDerived
        edition version master pairs place)) answer changes
        → changes ≢ []
        → AddsDerived (rows_of tables.now) ticket edition version master pairs place changes }
{}
