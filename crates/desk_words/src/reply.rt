//! What is answered.
use crate::blocked::Blocked;
use crate::choices::Choices;
use crate::contradictions::ContradictionSheet;
use crate::desk_look::Publication;
use crate::fits::Fits;
use crate::made::{Batched, Made};
use crate::published::{Catalogue, EditionSheet, MasterRowSheet, RegionSheet};
use crate::refusal::Refusal;
use crate::report::{RecordSheet, ReportSheet, SessionPage};
use crate::tables::Tables;
use crate::view::View;
use desk_base::{List, Str, Text};

/// What may be confirmed next.
#[derive(Debug, Drop)]
pub struct Suggested {
    /// The regions, by their numbers among those of the edition, with the row that fits, both counted from 1.
    pub regions: List<(u32, u32)>,
    /// Attributes that, once confirmed, may let everything be covered, and of which none can be left out.
    pub need: List<Text>,
    /// For each uncovered attribute how many others its confirmation may cover.
    pub gains: List<(Text, u16)>,
}

/// Why an attribute is fixed.
#[derive(Debug, Drop)]
pub struct Explained {
    pub attribute: Text,
    /// The steps of the first run that the attribute's fix rests on, as the first run of a view has them.
    pub steps: List<(Text, u32)>,
    /// The confirmed attributes that the rules of these steps read, in the attributes' order.
    pub uses: List<Text>,
}

/// The rows that a master gives for attributes.
#[derive(Debug, Drop)]
pub struct DerivedSheet {
    pub attributes: List<Text>,
    /// Each row of the master by its number, counted from 1, with a text for each attribute.
    pub rows: List<(u32, List<Text>)>,
}

/// What carrying a session to a newer version of its edition would change.
#[derive(Debug, Drop)]
pub struct Carried {
    /// The words of the attributes that the session would have and has not.
    pub added: List<Text>,
    /// The words of those that it has and would not have.
    pub dropped: List<Text>,
    /// The session as it stands, and as it would stand.
    pub before: View,
    pub after: View,
    /// The places, from 0, of the cells of one name that are shown otherwise, before and after.
    pub changed: List<(u16, u16)>,
}

/// The answer to a request.
#[derive(Debug)]
pub enum Reply {
    Made(Made),
    /// A session that was entered.
    Opened(View),
    View(View),
    /// The record and its session by their numbers among the clerk's, counted from 1.
    Committed {
        number: u32,
        session: u32,
        certain: bool,
    },
    Batched(Batched),
    Suggested(Suggested),
    Report(ReportSheet),
    Records(RecordSheet),
    Explained(Explained),
    Derived(DerivedSheet),
    Carried(Carried),
    Sessions(SessionPage),
    Catalogue(Catalogue),
    Edition(EditionSheet),
    MasterRow(MasterRowSheet),
    Region(RegionSheet),
    Choices(Choices),
    Blocked(Blocked),
    /// What was published, byte for byte.
    Body(Publication, List<u8>),
    Contradictions(ContradictionSheet),
    /// What a proposal that fits would be made to, with a sentence for a person on each kind of likely slip in it.
    Fits {
        fits: Fits,
        notes: List<Str>,
    },
    /// Why a proposal would be refused, with a sentence for a person.
    Unfit {
        refusal: Refusal,
        says: Str,
    },
    /// All rows of all tables, in tables without reserved places.
    Dump(Tables),
    Refused(Refusal),
}

/// One call lets a reply go. Written out in each function that may end with one, as a derive has it, its drop would be
/// most of that function's proof (`docs/gate.md`).
impl Drop for Reply {
    fn drop(self) {
        match self {
            Reply::Made(made) => drop(made),
            Reply::Opened(view) | Reply::View(view) => drop(view),
            Reply::Committed {
                number: _,
                session: _,
                certain: _,
            } => {}
            Reply::Batched(_) => {}
            Reply::Suggested(suggested) => drop(suggested),
            Reply::Report(sheet) => drop(sheet),
            Reply::Records(sheet) => drop(sheet),
            Reply::Explained(explained) => drop(explained),
            Reply::Derived(sheet) => drop(sheet),
            Reply::Carried(carried) => drop(carried),
            Reply::Sessions(page) => drop(page),
            Reply::Catalogue(catalogue) => drop(catalogue),
            Reply::Edition(sheet) => drop(sheet),
            Reply::MasterRow(sheet) => drop(sheet),
            Reply::Region(sheet) => drop(sheet),
            Reply::Choices(choices) => drop(choices),
            Reply::Blocked(blocked) => drop(blocked),
            Reply::Body(_, body) => drop(body),
            Reply::Contradictions(sheet) => drop(sheet),
            Reply::Fits { fits, notes } => {
                drop(fits);
                drop(notes);
            }
            Reply::Unfit { refusal, says } => {
                drop(refusal);
                drop(says);
            }
            Reply::Dump(tables) => drop(tables),
            Reply::Refused(refusal) => drop(refusal),
        }
    }
}
