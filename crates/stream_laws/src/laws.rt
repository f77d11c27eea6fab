//! What holds of the requests of a stream over any front, by the laws of the session machine.
ghost use Rattle.std.specs.Prelude.{◌≡◌, ◌≢◌, ℕ, All, List, [], ◌∷◌, ◌++◌, true, false, Ok};
ghost use Rattle.desk_words.specs.declared.change.Change.{Change as ChangeOf};
ghost use Rattle.desk_words.specs.declared.command.Command.{Command as CommandOf};
ghost use Rattle.desk_words.specs.declared.command.Command.TheVariants.{Desk};
ghost use Rattle.desk_words.specs.declared.desk_look.DeskLook.TheVariants.{Body};
ghost use Rattle.desk_words.specs.declared.desk_look.Publication.{Publication as PublicationOf};
ghost use Rattle.desk_words.specs.declared.refusal.Refusal.TheVariants.{Stale};
ghost use Rattle.desk_words.specs.declared.reply.Reply.{Reply as ReplyOf};
ghost use Rattle.desk_words.specs.declared.reply.Reply.TheVariants.{Body as Shown, Refused};
ghost use Rattle.desk_words.specs.Tables.{Rows, rows_of};
ghost use Rattle.desk_valid.specs.Valid.{AreValid};
ghost use Rattle.http_desk.specs.Answered.{Answered, Replied, Served, last_tables};
ghost use Rattle.http_desk.specs.Commands.{command_for};
ghost use Rattle.http_desk.specs.Fronts.{Front};
ghost use Rattle.machine_laws.specs.Callers.{Caller, asks};
ghost use Rattle.machine_laws.specs.Events.{AreAnswered, answers_to, commands_of, is_write_of, tables_after};
ghost use Rattle.machine_laws.specs.Events.{without_others};
ghost use Rattle.stream_laws.specs.Published.{PublishesItsBody};
ghost use Rattle.stream_laws.specs.Requests.{HasWriteOf, events_of};

use desk_base::Str;
use desk_words::Tables;

/// The requests of a stream that the machine replied to are requests one after another: each is answered by the machine
/// over the tables that those before it left, and the tables after them are those that the stream leaves, which are
/// valid where those before it were. So the laws of `machine_laws` over lists of requests hold of the requests of a
/// stream.
pub fn a_stream_is_requests_one_after_another(limit: u32)
    ensures answered { (front : Front) (count : ℕ) (before : Rows) (answers : List Answered) → Served front limit count before answers
        → AreAnswered before (events_of answers) }
    ensures tables { (front : Front) (count : ℕ) (before : Rows) (answers : List Answered) → Served front limit count before answers
        → tables_after before (events_of answers) ≡ last_tables before answers }
    ensures valid { (front : Front) (count : ℕ) (before : Rows) (answers : List Answered) → Served front limit count before answers
        → AreValid before → AreValid (last_tables before answers) }
{}

/// A request with the path and the body of an accepted one, with no accepted write of the same caller between, gets the
/// same reply and changes nothing.
pub fn equal_requests_act_once(limit: u32, tables: &Tables)
    requires { AreValid (rows_of tables.now) }
    ensures { (front : Front) (count : ℕ) (caller : Caller) (command : CommandOf) (earlier between : List Answered)
        (one again : Answered) (reply answer : ReplyOf) (changes others : List ChangeOf)
        → Served front limit count (rows_of tables.now) (earlier ++ one ∷ (between ++ again ∷ []))
        → again.request.0.target ≡ one.request.0.target → again.request.1 ≡ one.request.1
        → command_for one.request ≡ Ok command → asks caller command ≡ true
        → one.outcome ≡ Replied reply changes → changes ≢ []
        → All (λ event. is_write_of caller event ≡ false) (events_of between)
        → again.outcome ≡ Replied answer others
        → (answer ≡ reply) × (others ≡ []) }
{}

/// With an accepted write of that caller between it is stale, and changes nothing.
pub fn passed_requests_are_stale(limit: u32, tables: &Tables)
    requires { AreValid (rows_of tables.now) }
    ensures { (front : Front) (count : ℕ) (caller : Caller) (command : CommandOf) (earlier between : List Answered)
        (one again : Answered) (reply answer : ReplyOf) (changes others : List ChangeOf)
        → Served front limit count (rows_of tables.now) (earlier ++ one ∷ (between ++ again ∷ []))
        → again.request.0.target ≡ one.request.0.target → again.request.1 ≡ one.request.1
        → command_for one.request ≡ Ok command → asks caller command ≡ true
        → one.outcome ≡ Replied reply changes → changes ≢ []
        → HasWriteOf caller (events_of between)
        → again.outcome ≡ Replied answer others
        → (last : ℕ) × (answer ≡ Refused (Stale last)) × (others ≡ []) }
{}

/// The body of an accepted request that published a schema, a master or a rulebook is what each later look at its name
/// and its version is replied, byte for byte, whatever was asked between.
pub fn published_bodies_are_shown(limit: u32, tables: &Tables)
    requires { AreValid (rows_of tables.now) }
    ensures { (front : Front) (count : ℕ) (earlier between later : List Answered) (publishing look : Answered)
        (what : PublicationOf) (name : List ℕ) (version : ℕ) (answer : ReplyOf) (changes : List ChangeOf)
        → Served front limit count (rows_of tables.now) (earlier ++ publishing ∷ (between ++ look ∷ later))
        → PublishesItsBody publishing what name version
        → command_for look.request ≡ Ok (Desk (Body what name version)) → look.outcome ≡ Replied answer changes
        → answer ≡ Shown what publishing.request.1 }
{}

/// What a clerk is replied in a stream is what is replied in a stream without the requests of other clerks.
pub fn streams_isolate_clerks(limit: u32, tables: &Tables, name: &Str)
    requires { AreValid (rows_of tables.now) }
    ensures { (front : Front) (count number : ℕ) (answers others : List Answered)
        → Served front limit count (rows_of tables.now) answers → Served front limit number (rows_of tables.now) others
        → commands_of (events_of others) ≡ commands_of (without_others name.now (events_of answers))
        → answers_to name.now (events_of others) ≡ answers_to name.now (events_of answers) }
{}
