//! The top call of the program `fixdesk_web`: `serve_pages`, over the links of a door. It serves what `serve` of
//! `fixdesk_run` serves, but guards its port, shows pages, and logs each request that was answered.
//!
//! `specs/Plans.antt` says what the words of its command line ask for, `specs/Links.antt` what is logged of links,
//! and `specs/Serving.antt` what a call leaves of the output, the keeper and the door, and when no fault comes. What
//! serving a link leaves `http_desk` says, and `fixdesk_run` what links leave of a door.
#![tactic(auto)]

mod links;
mod pages;
mod plan;
mod saying;
mod serving;

pub use pages::PageTable;
pub use serving::serve_pages;
