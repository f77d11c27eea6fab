//! A program that serves the links of a door, as its words say.
ghost use Rattle.std.specs.Prelude.{◌≡◌, ◌⊎◌, ℕ, List, Option, map, string_bytes};
ghost use Rattle.desk_words.specs.Tables.{Rows};
ghost use Rattle.keeper_core.specs.Keeping.{IfTold, TellsNoMore, Uses};
ghost use Rattle.fixdesk_run.specs.Serve.{AreSteadyFor, IsServedFaultless, Leaves, TakesDue, end_code};
ghost use Rattle.fixdesk_run.specs.Site.{Later, Site, site, with_keeper};
ghost use Rattle.fixdesk_run.specs.Standing.{Standing, standing};
ghost use Rattle.fixdesk_run.specs.declared.plan.Plan.{Plan as PlanOf};
ghost use Rattle.fixdesk_run.specs.declared.serving.ServeEnd.{ServeEnd as EndOf};

use crate::opening::begin_machine;
use crate::plan::Plan;
use crate::serving::ServeEnd;
use crate::usage::tell_usage;
use desk_base::Sink;
use desk_links::Listener;
use keeper_core::Keeper;
use machine_core::Machine;
use std::alloc::Global;

/// What a program over a door is: its usage line, the plan of its words, and how it serves the links of a plan.
pub trait Service {
    /// The line that answers words which are no plan.
    ghost usage_line: { Self → List ℕ };

    /// The plan that words say, which are without the program's name.
    ghost planned: { Self → List (List ℕ) → Option PlanOf };

    /// What serving a plan leaves over the desk of a machine that began, by how it ended.
    ghost leaves: { Self → PlanOf → Standing → Site → Site → EndOf → Type 0 };

    /// An output that takes so many bytes takes what is written as a plan is served.
    ghost takes: { Self → (ℕ → Type 0) → PlanOf → Type 0 };

    /// The usage line.
    fn usage(&self) -> &[u8]
        ensures { result.now ≡ usage_line self.now };

    /// The plan of words. None where they are none.
    fn plan(&self, words: &[String]) -> Option<Plan>
        ensures { result ≡ planned self.now (map string_bytes words.now) };

    /// Serves the links of a plan over a machine that began. What is left does not depend on what the keeper told, and
    /// how often it was called, before the machine began.
    fn serve_plan<M: Machine + Drop, K: Keeper, L: Listener, W: Sink>(
        &self,
        alloc: Global,
        plan: Plan,
        machine: &mut M,
        keeper: &mut K,
        door: &mut L,
        out: &mut W,
    ) -> ServeEnd
        requires idle { (L.seen door.old).live ≡ 0 }
        requires told { IfTold (K.tables keeper.old) (M.rows machine.old) }
        ensures ends { let site = site W.Sink K.Keeper L.Listener in
            (told : Option Rows) (used : Uses)
            → leaves self.now plan (standing M.Machine K.Keeper machine.old keeper.old)
            (with_keeper (site out.old keeper.old door.old) told used) (site out.new keeper.new door.new) result }
        ensures no_more { TellsNoMore (K.tables keeper.old) (K.tables keeper.new) }
        ensures later { let site = site W.Sink K.Keeper L.Listener in
            Later (site out.old keeper.old door.old) (site out.new keeper.new door.new) }
        ensures idle { (L.seen door.new).live ≡ 0 }
        ensures complete { L.offers door.old plan.count → takes self.now (W.takes out.old) plan
            → (end_code result ≡ 0) ⊎ (end_code result ≡ 5) };
}

/// Does what the words of a service ask for, which are without the program's name, and answers the exit status: a
/// machine `M` begins over the keeper's tables, and links are served by the plan of the words; or the usage line is
/// written, where they are no plan, with status 1. Where no machine begins it is told why, with status 3, 4, 5 or 6,
/// and the door was not called.
pub fn run_service<M: Machine + Drop, S: Service, K: Keeper, L: Listener, W: Sink>(
    alloc: Global,
    service: &S,
    words: &[String],
    keeper: &mut K,
    door: &mut L,
    out: &mut W,
) -> u8
    requires { (L.seen door.old).live ≡ 0 }
    ensures leaves { let site = site W.Sink K.Keeper L.Listener in
        Leaves (S.usage_line service.now) (K.holds keeper.old) (S.leaves service.now)
        (S.planned service.now (map string_bytes words.now)) (site out.old keeper.old door.old)
        (site out.new keeper.new door.new) result }
    ensures idle { (L.seen door.new).live ≡ 0 }
    ensures complete { let site = site W.Sink K.Keeper L.Listener in
        let plan = S.planned service.now (map string_bytes words.now) in
        AreSteadyFor (K.is_steady keeper.old) (L.offers door.old) plan
        → TakesDue (S.usage_line service.now) (S.takes service.now) (W.takes out.old) plan
        (site out.old keeper.old door.old)
        → IsServedFaultless plan result }
{
    let Some(plan) = service.plan(words) else {
        return tell_usage(service.usage(), out).code();
    };
    let mut machine = match begin_machine::<M, K, W>(alloc, keeper, out) {
        Ok(machine) => machine,
        Err(status) => return status.code(),
    };
    let end = service.serve_plan(alloc, plan, &mut machine, keeper, door, out);
    end.code()
}
