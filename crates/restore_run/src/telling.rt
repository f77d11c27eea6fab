//! What is written in place of a desk: the usage line, and the line that names a damaged row.
ghost use Rattle.std.specs.Prelude.{◌≡◌, ◌≢◌, ◌≤◌, length};
ghost use Rattle.desk_base.specs.Sinks.{sink_seen};
ghost use Rattle.fixdesk_run.specs.Opening.{damage_line};
ghost use Rattle.restore_run.specs.Telling.{TellsDamage, TellsUsage, usage_line};

use crate::ended::RestoreEnd;
use desk_base::{Failed, Sink, write_all};
use desk_valid::Damage;
use fixdesk_run::{Status, stay_shut};
use machine_core::StartFail;
use std::alloc::Global;

/// The line that answers words.
const USAGE: &[u8] = b"usage: fixdesk_restore < DUMP\n";

/// Writes the usage line.
pub fn tell_usage<W: Sink>(out: &mut W) -> RestoreEnd
    ensures told { let seen = sink_seen W.written W.write_faults in TellsUsage (seen out.old) (seen out.new) result }
    ensures later { W.write_faults out.old ≤ W.write_faults out.new }
    ensures complete { W.takes out.old (length usage_line) → result ≡ RestoreEnd.NoCommand }
{
    match write_all(out, USAGE) {
        Ok(()) => RestoreEnd::NoCommand,
        Err(Failed) => RestoreEnd::WriteFault,
    }
}

/// Writes the line that names a damaged row, as a desk does that has such rows.
pub fn tell_damage<W: Sink>(alloc: Global, damage: Damage, out: &mut W) -> RestoreEnd
    ensures told { let seen = sink_seen W.written W.write_faults in
        TellsDamage damage (seen out.old) (seen out.new) result }
    ensures later { W.write_faults out.old ≤ W.write_faults out.new }
    ensures complete { W.takes out.old (length (damage_line damage)) → result ≢ RestoreEnd.WriteFault }
{
    match stay_shut(alloc, StartFail::Damaged(damage), out) {
        Status::Damaged => RestoreEnd::Damaged,
        Status::WriteFault => RestoreEnd::WriteFault,
        _ => RestoreEnd::NoMemory,
    }
}
