//! The line that adds up the rows that were written.
ghost use Rattle.std.specs.Prelude.{◌≡◌, IfOk, string_bytes};
ghost use Rattle.clean_run.specs.Statuses.{summary_text};

use sheet_clean::Summary;
use std::alloc::{AllocError, Global};

/// The line of a summary (docs/formats.md, *Statuses of `fixdesk_clean`*), without its end.
pub fn summary_line(alloc: Global, summary: &Summary) -> Result<String, AllocError>
    ensures { IfOk result (λ line. string_bytes line ≡ summary_text summary.now) }
{
    format!(in alloc;
        "rows {} certain {} partial {} conflict {} changed {} dissents {}",
        summary.rows,
        summary.certain,
        summary.partial,
        summary.conflict,
        summary.changed,
        summary.dissents
    )
}
