//! Clerks are isolated from one another.
//!
//! `specs/Alike.antt` says when tables look alike to a clerk, and `specs/Events.antt` what requests one after another
//! are.
ghost use Rattle.std.specs.Prelude.{◌≡◌, ◌≢◌, ℕ, List};
ghost use Rattle.desk_words.specs.Changes.{changed_all};
ghost use Rattle.desk_words.specs.declared.change.Change.{Change as ChangeOf};
ghost use Rattle.desk_words.specs.declared.reply.Reply.{Reply as ReplyOf};
ghost use Rattle.desk_words.specs.Tables.{published_of, rows_of};
ghost use Rattle.desk_valid.specs.Valid.{AreValid};
ghost use Rattle.machine_core.specs.Machine.{IsStep};
ghost use Rattle.machine_laws.specs.Alike.{LookAlike};
ghost use Rattle.machine_laws.specs.Events.{AreAnswered, Event, answers_to, commands_of, without_others};

use desk_base::Str;
use desk_words::{ClerkWork, Command, DeskLook, Look, Tables, Ticket};

/// The reply to a clerk's write is made of what was published and of the clerk's own rows: in tables that look alike to
/// the clerk it is the same. So each limit that a clerk can meet counts that clerk's rows alone.
pub fn writes_are_answered_by_own_rows(
    tables: &Tables,
    other: &Tables,
    name: &Str,
    ticket: &Ticket,
    work: &ClerkWork,
)
    requires { LookAlike name.now (rows_of tables.now) (rows_of other.now) }
    ensures { (answer answer_too : ReplyOf) (changes others : List ChangeOf)
        → IsStep (rows_of tables.now) (Command.Clerk name.now ticket.now work.now) answer changes
        → IsStep (rows_of other.now) (Command.Clerk name.now ticket.now work.now) answer_too others
        → answer ≡ answer_too }
{}

/// And so is the reply to a clerk's look.
pub fn looks_are_answered_by_own_rows(tables: &Tables, other: &Tables, name: &Str, look: &Look)
    requires { LookAlike name.now (rows_of tables.now) (rows_of other.now) }
    ensures { (answer answer_too : ReplyOf) (changes others : List ChangeOf)
        → IsStep (rows_of tables.now) (Command.Look name.now look.now) answer changes
        → IsStep (rows_of other.now) (Command.Look name.now look.now) answer_too others
        → answer ≡ answer_too }
{}

/// After a write of the clerk's own, accepted or not, valid tables look alike to the clerk still.
pub fn own_writes_leave_tables_alike(
    tables: &Tables,
    other: &Tables,
    name: &Str,
    ticket: &Ticket,
    work: &ClerkWork,
)
    requires valid { AreValid (rows_of tables.now) }
    requires valid_too { AreValid (rows_of other.now) }
    requires alike { LookAlike name.now (rows_of tables.now) (rows_of other.now) }
    ensures { (answer answer_too : ReplyOf) (changes others : List ChangeOf)
        → IsStep (rows_of tables.now) (Command.Clerk name.now ticket.now work.now) answer changes
        → IsStep (rows_of other.now) (Command.Clerk name.now ticket.now work.now) answer_too others
        → LookAlike name.now (changed_all (rows_of tables.now) changes) (changed_all (rows_of other.now) others) }
{}

/// A write of another clerk leaves valid tables as they look to a clerk.
pub fn other_clerks_leave_what_a_clerk_sees(
    tables: &Tables,
    name: &Str,
    other: &Str,
    ticket: &Ticket,
    work: &ClerkWork,
)
    requires valid { AreValid (rows_of tables.now) }
    requires apart { other.now ≢ name.now }
    ensures { (answer : ReplyOf) (changes : List ChangeOf)
        → IsStep (rows_of tables.now) (Command.Clerk other.now ticket.now work.now) answer changes
        → LookAlike name.now (rows_of tables.now) (changed_all (rows_of tables.now) changes) }
{}

/// In a list of requests the replies to a clerk are those of the list without the requests of other clerks.
pub fn replies_need_no_requests_of_others(tables: &Tables, name: &Str)
    requires { AreValid (rows_of tables.now) }
    ensures { (events others : List Event) → AreAnswered (rows_of tables.now) events
        → AreAnswered (rows_of tables.now) others
        → commands_of others ≡ commands_of (without_others name.now events)
        → answers_to name.now others ≡ answers_to name.now events }
{}

/// Derived rows are made of what was published alone.
pub fn derived_rows_are_answered_by_what_was_published(tables: &Tables, other: &Tables)
    requires { published_of (rows_of tables.now) ≡ published_of (rows_of other.now) }
    ensures { (edition : List ℕ) (version : ℕ) (master : List ℕ) (pairs : List (List ℕ × List ℕ))
        (answer answer_too : ReplyOf) (changes others : List ChangeOf)
        → IsStep (rows_of tables.now) (Command.Desk (DeskLook.Derive edition version master pairs)) answer changes
        → IsStep (rows_of other.now) (Command.Desk (DeskLook.Derive edition version master pairs)) answer_too others
        → answer ≡ answer_too }
{}
