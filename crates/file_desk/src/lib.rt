//! What the programs `fixdesk`, `fixdeskd`, `fixdesk_web` and `fixdesk_restore` are below `main`: their words, the name
//! of their file, and the desk over the files at a path.
//!
//! A clause of `run_over` and of `serve_over` says what `run` and `serve` of `fixdesk_run` leave over such files, one
//! of `pages_over` what `serve_pages` of `web_run` does, and one of `restore_over` what `restore_desk` of `restore_run`
//! does (`specs/Over.antt`), from what they held at first to what their keeper tells in the end.
#![tactic(auto)]

mod command_line;
mod ended;
mod paging;
mod program;
mod restoring;
mod running;
mod serving;
mod telling;

pub use command_line::words;
pub use ended::{Run, end};
pub use paging::pages_over;
pub use program::{Program, no_memory, start};
pub use restoring::{Restoring, end_restoring, is_there, restore_over};
pub use running::run_over;
pub use serving::serve_over;
pub use telling::Called;
