//! What the program that cleans sheets does between its words and its status, over any files, any source and any
//! sinks.
//!
//! `task_of` takes the words and reads the files that they name; `Job::clean` cleans a sheet by them.
//! `docs/formats.md`, *Cleaning a sheet*, says which words fit, what is written, and which status tells what.
#![tactic(auto)]

mod ended;
mod files;
mod job;
mod mem_files;
mod naming;
mod parts;
mod prepared;
mod sentences;
mod summary;
mod words;

pub use ended::{Ended, Status};
pub use files::{FileFault, Files};
pub use job::{Job, Task, show, task_of};
pub use mem_files::{MemFile, MemFiles};
pub use prepared::Prepared;
pub use summary::summary_line;
