//! A Carry moves one session, as the look before it shows.
//!
//! `specs/Carries.antt` says what moving a session is, and `specs/Events.antt` what requests one after another are.
ghost use Rattle.std.specs.Prelude.{◌≡◌, ◌≢◌, All, List, [], ◌∷◌, ◌++◌, true, false};
ghost use Rattle.desk_carry.specs.Changes.{AreChanged};
ghost use Rattle.desk_words.specs.declared.change.Change.{Change as ChangeOf};
ghost use Rattle.desk_words.specs.declared.reply.Carried.{Carried as CarriedOf};
ghost use Rattle.desk_words.specs.declared.reply.Reply.{Reply as ReplyOf};
ghost use Rattle.desk_words.specs.Tables.{rows_of};
ghost use Rattle.desk_valid.specs.Valid.{AreValid};
ghost use Rattle.machine_core.specs.Machine.{IsStep};
ghost use Rattle.machine_laws.specs.Callers.{clerk};
ghost use Rattle.machine_laws.specs.Carries.{CarriesOne};
ghost use Rattle.machine_laws.specs.Events.{AreAnswered, Event, is_accepted, is_write_of};

use desk_base::Str;
use desk_words::{ClerkWork, Command, Look, Reply, Tables, Ticket};

/// An accepted Carry puts one session and the caller's row, and nothing else: the session goes on over the version that
/// was asked for, with the texts and flags of the attributes whose words stay. It is answered by what the rules of that
/// version make of it.
pub fn a_carry_moves_one_session(
    tables: &Tables,
    name: &Str,
    ticket: &Ticket,
    session: u32,
    version: u32,
)
    ensures { (answer : ReplyOf) (changes : List ChangeOf)
        → IsStep (rows_of tables.now) (Command.Clerk name.now ticket.now (ClerkWork.Carry session version)) answer
        changes
        → changes ≢ []
        → CarriesOne (rows_of tables.now) name.now ticket.now session version answer changes }
{}

/// The look shows the session as a view shows it now and as an accepted Carry of it is answered, and exactly the cells
/// that these two show otherwise.
pub fn the_look_shows_what_a_carry_changes(
    tables: &Tables,
    name: &Str,
    ticket: &Ticket,
    session: u32,
    version: u32,
)
    ensures before { (carried : CarriedOf) (answer : ReplyOf) (changes others : List ChangeOf)
        → IsStep (rows_of tables.now) (Command.Look name.now (Look.Carry session version)) (Reply.Carried carried)
        changes
        → IsStep (rows_of tables.now) (Command.Look name.now (Look.View session)) answer others
        → answer ≡ Reply.View carried.before }
    ensures after { (carried : CarriedOf) (answer : ReplyOf) (changes others : List ChangeOf)
        → IsStep (rows_of tables.now) (Command.Look name.now (Look.Carry session version)) (Reply.Carried carried)
        changes
        → IsStep (rows_of tables.now) (Command.Clerk name.now ticket.now (ClerkWork.Carry session version)) answer
        others
        → others ≢ []
        → answer ≡ Reply.View carried.after }
    ensures changed { (carried : CarriedOf) (changes : List ChangeOf)
        → IsStep (rows_of tables.now) (Command.Look name.now (Look.Carry session version)) (Reply.Carried carried)
        changes
        → AreChanged carried.before carried.after carried.changed }
{}

/// In a list of requests that holds until the clerk's next accepted write: whatever others are answered meanwhile, the
/// session is shown as the look showed it before, and a Carry of it that is accepted is answered as the look showed it
/// after.
pub fn the_look_holds_until_the_next_write(
    tables: &Tables,
    name: &Str,
    ticket: &Ticket,
    session: u32,
    version: u32,
)
    requires { AreValid (rows_of tables.now) }
    ensures before { (carried : CarriedOf) (event one : Event) (between : List Event)
        → event.command ≡ Command.Look name.now (Look.Carry session version) → event.answer ≡ Reply.Carried carried
        → All (λ other. is_write_of (clerk name.now) other ≡ false) between
        → one.command ≡ Command.Look name.now (Look.View session)
        → AreAnswered (rows_of tables.now) (event ∷ (between ++ one ∷ []))
        → one.answer ≡ Reply.View carried.before }
    ensures after { (carried : CarriedOf) (event one : Event) (between : List Event)
        → event.command ≡ Command.Look name.now (Look.Carry session version) → event.answer ≡ Reply.Carried carried
        → All (λ other. is_write_of (clerk name.now) other ≡ false) between
        → one.command ≡ Command.Clerk name.now ticket.now (ClerkWork.Carry session version) → is_accepted one ≡ true
        → AreAnswered (rows_of tables.now) (event ∷ (between ++ one ∷ []))
        → one.answer ≡ Reply.View carried.after }
{}
