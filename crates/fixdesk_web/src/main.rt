//! The program `fixdesk_web`: its pages, a door on the loopback address that reads many peers in turns, standard output,
//! and the tables in `desk.db`, handed to `file_desk`.
#![tactic(auto)]

mod page_table;
mod pages;
mod ready;

use crate::page_table::WebPages;
use crate::pages::PAGES;
use crate::ready::RequestTest;
use desk_base::{NoMemory, StdSink, Str};
use file_desk::{Called, Program, end, no_memory, pages_over, start};
use fixdesk_run::Said;
use http_cut::Routes;
use sqlite::Unknown;
use std::process::ExitCode;
use tcp_door::TurnDoor;

fn main(rt: HostRuntime) -> ExitCode {
    start(&rt, &FixdeskWeb)
}

/// The program.
#[derive(Drop)]
struct FixdeskWeb;

impl Program for FixdeskWeb {
    fn name(&self) -> &str {
        "fixdesk_web"
    }

    fn run(&self, rt: &HostRuntime, called: Called<'_>, path: Str) -> u8 {
        match Routes::new(rt.alloc()) {
            Ok(routes) => serve(rt, called, path, routes),
            Err(NoMemory) => no_memory(rt, called.program),
        }
    }
}

/// Serves over files of which nothing is known beforehand, at a door that sees its last peers off.
fn serve(rt: &HostRuntime, called: Called<'_>, path: Str, routes: Routes) -> u8 {
    let mut door = TurnDoor::new(rt, RequestTest { routes });
    let pages = WebPages { pages: PAGES };
    let mut out = StdSink::new(rt.stdout());
    let run = pages_over(rt, called.words, &pages, path, Unknown, &mut door, &mut out);
    door.finish();
    end(rt, called, run, &Said::nothing())
}
