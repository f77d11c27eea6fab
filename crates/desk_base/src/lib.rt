//! What every crate of the desk stands on: cells and lists that never abort for want of memory, a
//! grid of master data, counted steps, and the streams that a program reads and writes.
//!
//! A clause sees a `Text` as its bytes, a `List` or a `Shared` list as its items, a `TextList` as its texts, a `Room` as
//! its items and the places that are reserved after them, a `Grid` as its rows of cells, and a `Source` or a `Sink` as
//! the bytes that it has left or holds, with a count of its faults. `specs/` says what the words mean.
#![tactic(auto)]

mod both;
mod duplicate;
mod error;
mod fault_count;
mod grid;
mod limits;
mod list;
mod memory;
mod places;
mod room;
mod shared;
mod sink;
mod source;
mod steps;
mod str;
mod text;
mod text_list;
mod words;

pub use both::Both;
pub use duplicate::Duplicate;
pub use error::{Failed, NoMemory};
pub use fault_count::FaultCount;
pub use grid::Grid;
pub use limits::{
    MAX_ACTIVE_SESSIONS, MAX_ATTRIBUTES, MAX_BATCH_BODY, MAX_BATCH_ROWS, MAX_BATCHES, MAX_BODY,
    MAX_CLERKS, MAX_COLUMN, MAX_COLUMNS, MAX_CONDITIONS, MAX_EDITIONS, MAX_ENTRIES, MAX_FIELDS,
    MAX_HEAD, MAX_INPUT, MAX_KEYS, MAX_LONG_BODY, MAX_MASTER_CELLS, MAX_MASTERS, MAX_REGION_ROWS,
    MAX_REGIONS, MAX_REQUEST, MAX_ROWS, MAX_RULES, MAX_SESSIONS, MAX_SET, MAX_SHEET_ROWS, MAX_TEXT,
    MAX_TEXT_BYTES, MAX_VERSIONS, MAX_WORD,
};
pub use list::List;
pub use memory::{CallPlan, MemLink, MemSink, MemSource};
pub use places::{are_apart, are_distinct, flags_of, has_text, is_utf8, place_of};
pub use room::Room;
pub use shared::Shared;
pub use sink::{Sink, StdSink, write_all};
pub use source::{Source, StdSource};
pub use steps::Steps;
pub use str::Str;
pub use text::{Text, TextFault};
pub use text_list::TextList;
pub use words::{is_name, is_word, is_word_byte, starts_word};
