//! What the programs that try or time the desk share: desks with keepers in memory and what their tables show, calls of
//! `run` over links in memory, the script with its responses, tables of what was told, and words.
//!
//! A clause sees a `KeptDesk` as the rows of its tables; of everything else it sees nothing.
#![tactic(auto)]

mod calls;
mod keeping;
mod kept_desk;
mod leaving;
mod script;
mod table;
mod words;

pub use calls::{Call, End, Told, call_words, serve};
pub use keeping::{fresh, keeper_of, shown};
pub use kept_desk::KeptDesk;
pub use leaving::leave;
pub use script::Script;
pub use table::Table;
pub use words::{add_word, words_of};
