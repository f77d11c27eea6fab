//! What holds of streams, whatever devices serve them, of the targets of their requests, and of what stands before the
//! machine.
ghost use Rattle.std.specs.Prelude.{◌≡◌, ◌⊎◌, ◌↔◌, ◌++◌, ℕ, Bool, true, false, List, Ok, Err, Some, None};
ghost use Rattle.http_cut.specs.Cut.{Begins, End, IsCut, WholeRequest};
ghost use Rattle.http_cut.specs.Routes.{Match, route_of};
ghost use Rattle.desk_json.specs.Commands.{command_in};
ghost use Rattle.desk_json.specs.declared.fault.JsonFault.{JsonFault};
ghost use Rattle.desk_json.specs.declared.route.Route.{Route};
ghost use Rattle.desk_json.specs.declared.route.Route.TheVariants.{AddEdition, CheckEdition};
ghost use Rattle.desk_words.specs.declared.rows.clerk.Digest.{Digest};
ghost use Rattle.desk_words.specs.Tables.{Rows};
ghost use Rattle.http_desk.specs.Answered.{Answers, AreDue, NoMemory as WantsMemory, Outcome, asks_head};
ghost use Rattle.http_desk.specs.Commands.{command_for};
ghost use Rattle.http_desk.specs.Fronts.{Front, bare, command_over, is_foreign, is_kept_out, page_for, stopped_at};
ghost use Rattle.http_desk.specs.Parameters.{route_in};
ghost use Rattle.http_desk.specs.Refusals.{refusal_text};
ghost use Rattle.http_desk.specs.Responses.{response};
ghost use Rattle.http_desk.specs.Scenes.{Scene};
ghost use Rattle.http_desk.specs.Streams.{IsOwnEnd, Streams};
ghost use Rattle.http_desk.specs.declared.declined.Declined.TheVariants.{Refused};
ghost use Rattle.http_desk.specs.declared.front.Page.{Page};
ghost use Rattle.http_desk.specs.declared.refusal.Refused.TheVariants.{Origin};
ghost use Rattle.http_desk.specs.declared.serving.Ended.{Ended};
ghost use Rattle.http_desk.specs.declared.status.Status.TheVariants as status;

/// Requests that stand at the front of bytes are the first that the bytes are cut into.
pub fn first_of_the_cut(bytes: &[u8])
    ensures { (requests all : List WholeRequest) (rest last : List ℕ) (end : End)
        → Begins bytes.now requests rest → IsCut bytes.now all last end
        → (more : List WholeRequest) × (all ≡ requests ++ more) }
{}

/// Over a front equal bytes are answered alike, in whatever pieces they come and whether they are told or not: two streams over
/// equal tables give equal answers and end alike, where neither ends for a fault or want of memory, and no answer is
/// for a failure of the keeper or want of memory.
pub fn answered_alike(limit: u32)
    ensures { (front : Front) (old new early late : Scene) (end other : Ended) (one : Streams front limit old new end)
        (two : Streams front limit early late other) → IsOwnEnd end → IsOwnEnd other → one.bytes ≡ two.bytes
        → old.tables ≡ early.tables → AreDue one.answers → AreDue two.answers
        → (one.answers ≡ two.answers) × (end ≡ other) }
{}

/// A target that has a route has the parameters of which its route is made, each in its form. So what is declined for
/// want of a route is a target that `http_cut` finds none for.
pub fn a_route_has_its_parameters(target: &[u8])
    ensures { (found : Match) → route_of target.now ≡ Some found
        → (route : Route) × (route_in found.0 found.1 ≡ Ok route) }
{}

/// A body does not propose an edition to be checked exactly where it does not propose one to be published, and for the
/// same fault.
pub fn a_check_reads_what_publishing_reads()
    ensures { (name : List ℕ) (number : ℕ) (digest other : Digest) (body : List ℕ) (fault : JsonFault)
        → (command_in (AddEdition number name) digest body ≡ Err fault)
        ↔ (command_in (CheckEdition name) other body ≡ Err fault) }
{}

/// Over a front that guards a port, a request is declined for its origin exactly where it is foreign to the port. It is
/// answered so, whatever it asks for, and changes nothing; there may be no memory to answer it.
pub fn foreign_requests_are_declined(port: u16)
    ensures exactly { (front : Front) (request : WholeRequest) → front.guarded ≡ Some port
        → (command_over front request ≡ Err (Refused Origin)) ↔ (is_foreign port request.0 ≡ true) }
    ensures answered { (front : Front) (request : WholeRequest) (before after : Rows) (closing : Bool)
        (outcome : Outcome) (text : List ℕ) → front.guarded ≡ Some port → is_foreign port request.0 ≡ true
        → Answers before (command_over front request) closing (asks_head request) outcome after text
        → (after ≡ before)
        × ((text ≡ refusal_text Origin closing (asks_head request)) ⊎ (outcome ≡ WantsMemory)) }
{}

/// A request for a page that is not kept out is answered with the page's text, and changes nothing; there may be no
/// memory to answer it.
pub fn pages_are_shown()
    ensures { (front : Front) (request : WholeRequest) (page : Page) (before after : Rows) (closing : Bool)
        (outcome : Outcome) (text : List ℕ) → is_kept_out front.guarded request.0 ≡ false → page_for front.pages request.0 ≡ Some page
        → Answers before (command_over front request) closing (asks_head request) outcome after text
        → (after ≡ before)
        × ((text ≡ response status.Ok page.kind page.text.now closing (asks_head request))
        ⊎ (outcome ≡ WantsMemory)) }
{}

/// What is neither kept out nor asks for a page is what it is without a front. A bare front stops nothing.
pub fn all_else_is_as_without_a_front()
    ensures others { (front : Front) (request : WholeRequest) → stopped_at front request.0 ≡ None
        → command_over front request ≡ command_for request }
    ensures bare { (request : WholeRequest) → command_over bare request ≡ command_for request }
{}
