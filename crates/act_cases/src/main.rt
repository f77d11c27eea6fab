//! Tries the cases in `data/`: requests over a desk, one step after another, each with the reply that is wanted.
//!
//! The words are the files of cases. `docs/cases.md` says how a case is written, and the README which parts these have.
#![tactic(auto)]

mod beginnings;
mod ends;
mod numbering;
mod replies;
mod requests;
mod showing;
mod steps;
mod trace;

use crate::beginnings::Beginnings;
use crate::steps::{is_step, make_steps};
use desk_base::List;
use desk_cases::{Answer, Case, Part, Subject, try_files};
use desk_trials::KeptDesk;
use http_cut::Routes;
use machine_core::StartFail;
use std::test::Fail;

/// The table of routes, and the desks from which cases begin.
#[derive(Drop)]
struct Desks {
    routes: Routes,
    beginnings: Beginnings,
}

impl Desks {
    /// Adds the answer to a case.
    fn add_answer(&mut self, case: &Case, answer: &mut Answer) -> Result<(), Fail> {
        let fails = List::from_vec(case.numbers(answer.alloc(), "fails")?);
        let tables = self.beginnings.tables(answer.alloc(), case)?;
        match KeptDesk::begin(answer.alloc(), tables, fails) {
            Ok(desk) => self.add_answer_of(desk, case, answer),
            Err(StartFail::Unavailable) => answer.text("start", "unavailable"),
            Err(_) => Err(Fail::new("a desk did not begin")),
        }
    }

    /// Adds the answer to a case over its desk, whose keeper is kept where the case names it.
    fn add_answer_of(
        &mut self,
        mut desk: KeptDesk,
        case: &Case,
        answer: &mut Answer,
    ) -> Result<(), Fail> {
        let told = make_steps(&self.routes, &mut desk, case, answer);
        let keeper = desk.into_keeper();
        match told {
            Ok(()) => self.beginnings.keep(answer.alloc(), case, keeper),
            Err(fail) => {
                drop(keeper);
                Err(fail)
            }
        }
    }
}

impl Subject for Desks {
    fn reads(&self, _kind: &str, _case: &Case, part: &Part) -> bool {
        is_step(part) || matches!(part.name.as_str(), "from" | "named" | "fails")
    }

    fn answer(&mut self, kind: &str, case: &Case, answer: &mut Answer) -> Result<(), Fail> {
        match kind {
            "desk" => self.add_answer(case, answer),
            _ => Err(Fail::new("a file of cases has an unknown kind")),
        }
    }
}

fn main(rt: HostRuntime) -> Result<(), Fail> {
    let routes = Routes::new(rt.alloc())?;
    let beginnings = Beginnings::new(rt.alloc());
    try_files(&rt, &mut Desks { routes, beginnings })
}
