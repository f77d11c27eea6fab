//! The top calls of the programs: `run` of `fixdesk`, over a link, and `serve` of `fixdeskd`, over the links of a door.
//! Each does what the words of its command line ask for.
//!
//! `specs/Task.antt` says what words ask for, `specs/Run.antt` what a call of `run` leaves of the link and the keeper
//! and when no fault comes; `specs/Pipe.antt`, `Report.antt`, `Make.antt` and `Usage.antt` the same for each task by
//! its status, and `specs/Opening.antt` where no machine begins. `specs/Plan.antt` and `Serve.antt` say the same of
//! `serve`. What `once` leaves `once_run` says, and `http_desk` what serving a stream leaves. A `Service` is what another
//! program over a door is: `run_service` does what its words ask for.
#![tactic(auto)]

pub mod laws;
mod make;
pub mod numbers;
mod opening;
mod pipe;
mod plan;
mod report;
mod service;
mod serving;
mod tally;
mod task;
mod top;
mod usage;
mod visits;

pub use desk_made::made;
pub use once_run::{Said, Status, tell, tell_said};
pub use opening::stay_shut;
pub use plan::{Plan, plan_of};
pub use service::{Service, run_service};
pub use serving::{ServeEnd, serve};
pub use top::run;
pub use usage::tell_usage;
pub use visits::serve_next;
