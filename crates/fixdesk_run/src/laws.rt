//! What holds of the definitions: the words of `make` determine what is written.
ghost use Rattle.std.specs.Prelude.{◌≡◌};
ghost use Rattle.fixdesk_run.specs.Make.{IsSummary};

/// So many sessions, by draws from a start, have one summary at most.
pub fn one_summary(sessions: u32, start: u32, text: &[u8], other: &[u8])
    requires summary { IsSummary sessions start text.now }
    requires also { IsSummary sessions start other.now }
    ensures { text.now ≡ other.now }
{}
