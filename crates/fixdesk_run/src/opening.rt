//! A machine that begins over a keeper's tables, and what is told where none does.
ghost use Rattle.std.specs.Prelude.{◌≡◌, ◌≢◌, ◌≤◌, ℕ, List, Option, length, IfErr, IfOk, OnOk};
ghost use Rattle.keeper_core.specs.Keeping.{uses};
ghost use Rattle.fixdesk_run.specs.Link.{link_with};
ghost use Rattle.fixdesk_run.specs.Opening.{Begins, IsUnfailed, MayBeDamageLine, StaysShut, TakesFail, TellsDamage};
ghost use Rattle.fixdesk_run.specs.Opening.{TellsFail, damage_line};
ghost use Rattle.fixdesk_run.specs.Standing.{standing};
ghost use Rattle.fixdesk_run.specs.World.{world_with};

use desk_base::{Failed, List, NoMemory, Sink, write_all};
use desk_valid::Damage;
use keeper_core::Keeper;
use machine_core::{Machine, StartFail};
use once_run::Status;
use std::alloc::Global;

/// A machine over the keeper's tables. Where none begins it is told why, as by `stay_shut`, and the status says so.
pub(crate) fn begin_machine<M: Machine, K: Keeper, W: Sink>(
    alloc: Global,
    keeper: &mut K,
    out: &mut W,
) -> Result<M, Status>
    ensures begun { IfOk result (λ machine. Begins (K.holds keeper.old) (K.tables keeper.old)
        (uses K.calls K.faults keeper.old) (standing M.Machine K.Keeper machine keeper.new)) }
    ensures silent { OnOk result (out.new ≡ out.old) }
    ensures shut { (left : Option (List ℕ)) (read_faults : ℕ)
        → let world = world_with W.Sink K.Keeper left read_faults in
        IfErr result (StaysShut (world out.old keeper.old) (world out.new keeper.new)) }
    ensures write_faults { W.write_faults out.old ≤ W.write_faults out.new }
    ensures steady { K.is_steady keeper.old → OnOk result (K.is_steady keeper.new) }
    ensures complete { K.is_steady keeper.old
        → ((text : List ℕ) → MayBeDamageLine (K.tables keeper.old) text → W.takes out.old (length text))
        → IfErr result IsUnfailed }
{
    match M::start(alloc, keeper) {
        Ok(machine) => Ok(machine),
        Err(fail) => Err(stay_shut(alloc, fail, out)),
    }
}

/// Tells why no machine began: a line that names the first damaged row, and nothing else. Of a link with this output
/// the input stays, whatever it is.
pub fn stay_shut<W: Sink>(alloc: Global, fail: StartFail, out: &mut W) -> Status
    ensures told { (left : Option (List ℕ)) (read_faults : ℕ)
        → let seen = link_with W.Sink left read_faults in
        TellsFail fail (seen out.old) (seen out.new) result }
    ensures write_faults { W.write_faults out.old ≤ W.write_faults out.new }
    ensures complete { TakesFail (W.takes out.old) fail → result ≢ Status.WriteFault }
{
    match fail {
        StartFail::Damaged(damage) => tell_damage(alloc, damage, out),
        StartFail::Unavailable => Status::Unavailable,
        StartFail::NoMemory => Status::NoMemory,
    }
}

/// Writes the line that names a damaged row.
fn tell_damage<W: Sink>(alloc: Global, damage: Damage, out: &mut W) -> Status
    ensures told { (left : Option (List ℕ)) (read_faults : ℕ)
        → let seen = link_with W.Sink left read_faults in
        TellsDamage damage (seen out.old) (seen out.new) result }
    ensures write_faults { W.write_faults out.old ≤ W.write_faults out.new }
    ensures complete { W.takes out.old (length (damage_line damage)) → result ≢ Status.WriteFault }
{
    let line = match damage_line(alloc, damage) {
        Ok(line) => line,
        Err(NoMemory) => return Status::NoMemory,
    };
    match write_all(out, line.as_slice()) {
        Ok(()) => Status::Damaged,
        Err(Failed) => Status::WriteFault,
    }
}

/// The line that names a damaged row.
fn damage_line(alloc: Global, damage: Damage) -> Result<List<u8>, NoMemory>
    ensures { IfOk result (λ line. line ≡ damage_line damage) }
{
    let table = damage.table.to_string(alloc)?;
    let row = damage.row.to_string(alloc)?;
    let mut line = Vec::new(alloc);
    line.extend_from_slice(b"damaged table ")?;
    line.extend_from_slice(table.as_str().as_bytes())?;
    line.extend_from_slice(b" row ")?;
    line.extend_from_slice(row.as_str().as_bytes())?;
    line.push(b'\n')?;
    Ok(List::from_vec(line))
}
