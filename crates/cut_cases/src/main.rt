//! Tries the cases in `data/`: streams that are cut into requests, streams that end early, routes, responses, and what
//! the generator makes.
//!
//! The words are the files of cases; a file's name up to its first `-` says what is tried. `docs/cases.md` says
//! how a case is written, and the README what its parts are.
#![tactic(auto)]

mod early;
mod making;
mod responding;
mod routing;
mod streams;

use desk_cases::{Answer, Case, Part, Subject, try_files};
use http_cut::Routes;
use std::test::Fail;

/// The table of routes, by which bodies have their limits.
#[derive(Drop)]
struct Cutting {
    routes: Routes,
}

impl Subject for Cutting {
    fn reads(&self, _kind: &str, _case: &Case, part: &Part) -> bool {
        part.name.as_str() != "wanted"
    }

    fn answer(&mut self, kind: &str, case: &Case, answer: &mut Answer) -> Result<(), Fail> {
        let routes = &self.routes;
        match kind {
            "stream" => streams::told(routes, case, answer),
            "early" => early::told(routes, case, answer),
            "route" => routing::told(routes, case, answer),
            "response" => responding::responded(case, answer),
            "refusal" => responding::refused(case, answer),
            "draws" => making::draws(case, answer),
            "made" => making::request(routes, case, answer),
            _ => Err(Fail::new("a file of cases has an unknown kind")),
        }
    }
}

fn main(rt: HostRuntime) -> Result<(), Fail> {
    let routes = Routes::new(rt.alloc())?;
    try_files(&rt, &mut Cutting { routes })
}
