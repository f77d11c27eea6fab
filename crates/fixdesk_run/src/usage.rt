//! The line that answers words which are no command.
ghost use Rattle.std.specs.Prelude.{◌≡◌, ◌≤◌, ◌⊎◌, length, None};
ghost use Rattle.once_run.specs.Status.{status_code};
ghost use Rattle.fixdesk_run.specs.Link.{Says, SaysPart, link_with};

use desk_base::{Failed, Sink, write_all};
use once_run::Status;

/// Writes the usage line of a program that serves links, with status 1, or a part of it where the output fails, with
/// status 3.
pub fn tell_usage<W: Sink>(usage: &[u8], out: &mut W) -> Status
    ensures told { let seen = link_with W.Sink None 0 in
        ((status_code result ≡ 1) × Says usage.now (seen out.old) (seen out.new))
        ⊎ ((status_code result ≡ 3) × SaysPart usage.now (seen out.old) (seen out.new)) }
    ensures later { W.write_faults out.old ≤ W.write_faults out.new }
    ensures complete { W.takes out.old (length usage.now) → status_code result ≡ 1 }
{
    match write_all(out, usage) {
        Ok(()) => Status::NoCommand,
        Err(Failed) => Status::WriteFault,
    }
}
