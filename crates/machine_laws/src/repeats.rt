//! Repeats act once.
//!
//! `specs/Callers.antt` says who asks, and `specs/Events.antt` what requests one after another are.
ghost use Rattle.std.specs.Prelude.{◌≡◌, ◌≢◌, ◌+◌, ℕ, All, List, [], ◌∷◌, ◌++◌, filter, length, true, false};
ghost use Rattle.std.specs.List.{range_with_len};
ghost use Rattle.desk_words.specs.declared.change.Change.{Change as ChangeOf};
ghost use Rattle.desk_words.specs.declared.refusal.Refusal.TheVariants.{Stale};
ghost use Rattle.desk_words.specs.declared.reply.Reply.{Reply as ReplyOf};
ghost use Rattle.desk_words.specs.declared.reply.Reply.TheVariants.{Refused};
ghost use Rattle.desk_words.specs.Tables.{rows_of};
ghost use Rattle.desk_valid.specs.Valid.{AreValid};
ghost use Rattle.machine_core.specs.Checked.{IsFound};
ghost use Rattle.machine_core.specs.Machine.{IsStep};
ghost use Rattle.machine_core.specs.Own.{Own};
ghost use Rattle.machine_laws.specs.Callers.{Caller, asks, number_of, own_by};
ghost use Rattle.machine_laws.specs.Events.{AreAnswered, Event, is_accepted, is_write_of, numbers_of, tables_after};

use desk_words::{Command, Tables};

/// An accepted write has the number after the last one in its caller's row.
pub fn an_accepted_write_has_the_next_number(tables: &Tables, command: &Command)
    requires { AreValid (rows_of tables.now) }
    ensures { (caller : Caller) (own : Own) (answer : ReplyOf) (changes : List ChangeOf)
        → IsFound (own_by (rows_of tables.now) caller) own → asks caller command.now ≡ true → changes ≢ []
        → IsStep (rows_of tables.now) command.now answer changes
        → number_of command.now ≡ own.row.last + 1 }
{}

/// In any list of requests the accepted writes of a caller have numbers that go up by one: from the number after the
/// last one in the caller's row on, and from one of them on, also where the clerk comes while the list goes on.
pub fn accepted_numbers_go_up_by_one(tables: &Tables)
    requires { AreValid (rows_of tables.now) }
    ensures all { (caller : Caller) (own : Own) (events : List Event)
        → IsFound (own_by (rows_of tables.now) caller) own → AreAnswered (rows_of tables.now) events
        → numbers_of caller events ≡ range_with_len (own.row.last + 1) (length (numbers_of caller events)) }
    ensures from_one_on { (caller : Caller) (event : Event) (events : List Event) → is_write_of caller event ≡ true
        → AreAnswered (rows_of tables.now) (event ∷ events)
        → numbers_of caller (event ∷ events)
        ≡ range_with_len (number_of event.command) (length (numbers_of caller (event ∷ events))) }
{}

/// A request that is equal to an accepted one of its caller, with no accepted write of that caller between, gets the
/// same reply and changes nothing.
pub fn a_repeat_gets_the_same_reply(tables: &Tables)
    requires { AreValid (rows_of tables.now) }
    ensures reply { (caller : Caller) (event again : Event) (between : List Event)
        → asks caller event.command ≡ true → is_accepted event ≡ true
        → All (λ one. is_write_of caller one ≡ false) between → again.command ≡ event.command
        → AreAnswered (rows_of tables.now) (event ∷ (between ++ again ∷ []))
        → again.answer ≡ event.answer }
    ensures unchanged { (caller : Caller) (event again : Event) (between : List Event)
        → asks caller event.command ≡ true → is_accepted event ≡ true
        → All (λ one. is_write_of caller one ≡ false) between → again.command ≡ event.command
        → AreAnswered (rows_of tables.now) (event ∷ (between ++ again ∷ []))
        → again.changes ≡ [] }
{}

/// With an accepted write of that caller between, it is stale and changes nothing.
pub fn a_passed_number_is_stale(tables: &Tables)
    requires { AreValid (rows_of tables.now) }
    ensures { (caller : Caller) (event one again : Event) (earlier later : List Event)
        → asks caller event.command ≡ true → is_accepted event ≡ true → is_write_of caller one ≡ true
        → again.command ≡ event.command
        → AreAnswered (rows_of tables.now) (event ∷ (earlier ++ one ∷ (later ++ again ∷ [])))
        → (last : ℕ) × (again.answer ≡ Refused (Stale last)) × (again.changes ≡ []) }
{}

/// The tables after a list of requests are those after its accepted writes alone, which are answered as they were.
pub fn accepted_writes_alone_leave_the_tables(tables: &Tables)
    ensures answered { (events : List Event) → AreAnswered (rows_of tables.now) events
        → AreAnswered (rows_of tables.now) (filter is_accepted events) }
    ensures tables { (events : List Event) → AreAnswered (rows_of tables.now) events
        → tables_after (rows_of tables.now) (filter is_accepted events) ≡ tables_after (rows_of tables.now) events }
{}
