//! What is said to a person where a text is refused: the place, what stands there, and what was expected or what to do.
//!
//! A clause sees a `Sentence` as its bytes. Each sentence is defined in `specs/`, by its words and arguments:
//! `Schemas.antt`, `Sheets.antt`, `Rules.antt`, `Bindings.antt`, `Proposals.antt` and `Published.antt`, and `Notes.antt`
//! has those on what is taken though it is likely a slip. `Shown.antt` says how a sentence shows what stands in a text.
#![tactic(auto)]

mod bindings;
mod lacking;
pub mod laws;
mod names;
mod notes;
mod proposals;
mod published;
mod records;
mod rules;
mod schemas;
mod sentence;
mod sheets;
mod sight;
mod slips;
mod twins;
mod utf8;

pub use bindings::{Over, bind_sentence, index_sentence};
pub use lacking::{absent_note, column_note, rules_told};
pub use notes::{schema_notes, sheet_notes};
pub use proposals::{
    key_form_sentence, no_json_sentence, no_key_sentence, no_object_sentence, other_key_sentence,
};
pub use published::{
    Published, absent_sentence, bad_name_sentence, cells_sentence, folded_sentence, full_sentence,
    masters_sentence, twice_sentence,
};
pub use rules::rules_sentence;
pub use schemas::{plain_schema_sentence, schema_sentence};
pub use sentence::Sentence;
pub use sheets::sheet_sentence;
pub use slips::Slip;
