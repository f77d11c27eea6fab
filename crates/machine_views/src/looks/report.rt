//! Report: a line for each edition, over a clerk's sessions or over all.
ghost use Rattle.std.specs.Prelude.{◌≡◌, ◌+◌, ◌<◌, ◌^◌, ◌++◌, ℕ, All, IfOk, IfSome, List, None, Some, length};
ghost use Rattle.std.specs.Prelude.{option_map, sum_by};
ghost use Rattle.std.specs.List.{flat_map};
ghost use Rattle.desk_words.specs.declared.rows.session.SessionRow.{SessionRow as RowOf};
ghost use Rattle.desk_words.specs.Tables.{published_of, rows_of};
ghost use Rattle.machine_workplace.specs.Ready.{IsReady};
ghost use Rattle.machine_core.specs.Checked.{Gives};
ghost use Rattle.machine_core.specs.Look.Report.{report_of};
ghost use Rattle.machine_core.specs.Own.{IsOwn};
ghost use Rattle.machine_core.specs.Sessions.{IsSessionOf};
ghost use Rattle.machine_views.specs.Reporting.{AreCountsOn, AreFew, AreLinesOver, all_sessions, line_of, sessions_of};

use crate::counting::upshot_at;
use crate::looks::counts::Counts;
use desk_base::{Duplicate, List, NoMemory, Text};
use desk_valid::own_list;
use desk_words::{EditionRow, ReportLine, ReportSheet, SessionRow, Tables};
use machine_core::Own;
use machine_workplace::{SessionAt, Workplace};

/// The report of the clerk at a place: a line for each edition, over the clerk's sessions.
pub fn clerk_report(
    tables: &Tables,
    workplace: &mut Workplace,
    clerk: u32,
    own: &Own,
) -> Result<ReportSheet, NoMemory>
    requires ready { IsReady (rows_of tables.now) workplace.old }
    requires own { IsOwn (rows_of tables.now) own.now }
    ensures report { IfOk result (λ sheet. Gives
        (report_of (published_of (rows_of tables.now)) (Some own.now.row.name) own.now.sessions) (Ok sheet)) }
    ensures ready { IsReady (rows_of tables.now) workplace.new }
{
    let name = own.row().name.copy()?;
    let own = Some((clerk, own.sessions()));
    let lines = lines_over(tables, workplace, own)?;
    Ok(sheet(Some(name), lines))
}

/// The desk's report: a line for each edition, over the sessions of all clerks.
pub fn desk_report(tables: &Tables, workplace: &mut Workplace) -> Result<ReportSheet, NoMemory>
    requires ready { IsReady (rows_of tables.now) workplace.old }
    ensures report { IfOk result (λ sheet. Gives (report_of (published_of (rows_of tables.now)) None
        (flat_map (λ sessions. sessions) (rows_of tables.now).sessions)) (Ok sheet)) }
    ensures ready { IsReady (rows_of tables.now) workplace.new }
{
    let lines = lines_over(tables, workplace, None)?;
    Ok(sheet(None, lines))
}

/// A sheet of lines, with the sum of their sessions.
fn sheet(clerk: Option<Text>, lines: List<ReportLine>) -> ReportSheet
    requires { sum_by (λ line. line.sessions) lines < 2 ^ 64 }
    ensures { result ≡ record { clerk = clerk; lines = lines; total = sum_by (λ line. line.sessions) lines } }
{
    let total = lines.as_slice().iter().map(|line| line.sessions).sum();
    ReportSheet {
        clerk,
        lines,
        total,
    }
}

/// A line for each edition in their order, over a clerk's own sessions, or where none are named over all.
fn lines_over(
    tables: &Tables,
    workplace: &mut Workplace,
    own: Option<(u32, &[SessionRow])>,
) -> Result<List<ReportLine>, NoMemory>
    requires ready { IsReady (rows_of tables.now) workplace.old }
    requires sessions { IfSome own (λ own. All (IsSessionOf (published_of (rows_of tables.now))) own.1.now) }
    requires short { IfSome own (λ own. length own.1.now < 2 ^ 31) }
    ensures lines { IfOk result (AreLinesOver (published_of (rows_of tables.now))
        (sessions_of (rows_of tables.now) (option_map (λ own. own.1.now) own.entry))
        (length tables.now.editions.items)) }
    ensures few { IfOk result (λ lines. sum_by (λ line. line.sessions) lines < 2 ^ 64) }
    ensures ready { IsReady (rows_of tables.now) workplace.new }
{
    let mut lines = List::new(workplace.alloc);
    'editions: for edition in 0..tables.editions.len() {
        let counts = counts_on(tables, workplace, own, edition as u32)?;
        lines.push(report_line(&tables.editions.as_slice()[edition], counts)?)?;
    }
    Ok(lines)
}

/// The line of an edition with these counts.
fn report_line(edition: &EditionRow, counts: Counts) -> Result<ReportLine, NoMemory>
    ensures { IfOk result (λ line. line ≡ line_of edition.now counts) }
{
    Ok(ReportLine {
        edition: edition.name.copy()?,
        version: edition.version,
        sessions: counts.sessions,
        active: counts.stages.active,
        committed: counts.stages.committed,
        abandoned: counts.stages.abandoned,
        certain: counts.verdicts.certain,
        partial: counts.verdicts.partial,
        conflict: counts.verdicts.conflict,
        confirmed: counts.cells.confirmed,
        fixed: counts.cells.fixed,
        uncovered: counts.cells.uncovered,
    })
}

/// The sessions on an edition, counted: a clerk's own, or where none are named those of all.
fn counts_on(
    tables: &Tables,
    workplace: &mut Workplace,
    own: Option<(u32, &[SessionRow])>,
    edition: u32,
) -> Result<Counts, NoMemory>
    requires ready { IsReady (rows_of tables.now) workplace.old }
    requires sessions { IfSome own (λ own. All (IsSessionOf (published_of (rows_of tables.now))) own.1.now) }
    requires short { IfSome own (λ own. length own.1.now < 2 ^ 31) }
    ensures counts { IfOk result (AreCountsOn (published_of (rows_of tables.now)) edition
        (sessions_of (rows_of tables.now) (option_map (λ own. own.1.now) own.entry))) }
    ensures few { IfOk result (AreFew (2 ^ 40)) }
    ensures ready { IsReady (rows_of tables.now) workplace.new }
{
    match own {
        Some((clerk, sessions)) => counted(
            tables,
            workplace,
            clerk,
            sessions,
            edition,
            Counts::none(),
        ),
        None => all_counted(tables, workplace, edition),
    }
}

/// The sessions of all clerks on an edition, counted.
fn all_counted(tables: &Tables, workplace: &mut Workplace, edition: u32) -> Result<Counts, NoMemory>
    requires ready { IsReady (rows_of tables.now) workplace.old }
    ensures counts { IfOk result
        (AreCountsOn (published_of (rows_of tables.now)) edition (all_sessions (rows_of tables.now))) }
    ensures few { IfOk result (AreFew (2 ^ 40)) }
    ensures ready { IsReady (rows_of tables.now) workplace.new }
{
    let mut counts = Counts::none();
    'clerks: for clerk in 0..tables.sessions.len() {
        let sessions = own_list(&tables.sessions, clerk);
        let place = clerk as u32;
        counts = counted(tables, workplace, place, sessions, edition, counts)?;
    }
    Ok(counts)
}

/// The sessions on an edition among these of the clerk at a place, counted with those before.
fn counted(
    tables: &Tables,
    workplace: &mut Workplace,
    clerk: u32,
    sessions: &[SessionRow],
    edition: u32,
    before: Counts,
) -> Result<Counts, NoMemory>
    requires ready { IsReady (rows_of tables.now) workplace.old }
    requires sessions { All (IsSessionOf (published_of (rows_of tables.now))) sessions.now }
    requires short { length sessions.now < 2 ^ 31 }
    requires few { AreFew (2 ^ 40) before }
    ensures counts { IfOk result (λ counts. (earlier : List RowOf)
        → AreCountsOn (published_of (rows_of tables.now)) edition earlier before
        → AreCountsOn (published_of (rows_of tables.now)) edition (earlier ++ sessions.now) counts) }
    ensures most { IfOk result
        (λ counts. (most : ℕ) → AreFew most before → AreFew (most + length sessions.now) counts) }
    ensures ready { IsReady (rows_of tables.now) workplace.new }
{
    let mut counts = before;
    'sessions: for (place, session) in sessions.iter().enumerate() {
        if session.edition == edition {
            let place = place as u32;
            let at = SessionAt { clerk, place };
            let upshot = upshot_at(tables, workplace, at, session)?;
            counts = counts.with(session.stage, upshot);
        }
    }
    Ok(counts)
}
