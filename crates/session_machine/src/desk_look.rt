//! What is looked at at the desk, one look a case.
ghost use Rattle.std.specs.Prelude.{◌≡◌, ◌<◌, ◌^◌, IfOk};
ghost use Rattle.desk_words.specs.Tables.{rows_of};
ghost use Rattle.desk_words.specs.declared.command.Command.TheVariants.{Desk};
ghost use Rattle.desk_valid.specs.Tallies.{master_cells};
ghost use Rattle.machine_workplace.specs.Ready.{IsReady};
ghost use Rattle.machine_core.specs.DeskLook.{desk_reply};
ghost use Rattle.machine_core.specs.Machine.{machine};
ghost use Rattle.machine_core.specs.Outcomes.{Answers};
ghost use Rattle.session_machine.specs.Booked.{IsBooked};

use desk_base::List;
use desk_totals::Totalled;
use desk_words::{Change, DeskLook, Reply, Tables};
use machine_core::{Stop, checked};
use machine_views::{
    body_of, catalogue, contradictions_shown, derived_sheet, desk_report, edition_shown,
    region_shown, row_shown,
};
use machine_workplace::Workplace;

/// What a look at the desk comes to. It changes nothing.
pub fn desk_look(
    totalled: &Totalled,
    workplace: &mut Workplace,
    look: &DeskLook,
) -> Result<(Reply, List<Change>), Stop>
    requires ready { IsReady totalled.now workplace.old }
    ensures answers { Answers result (machine totalled.now (Desk look.now)) }
    ensures booked { IfOk result (λ made. IsBooked totalled.now (Desk look.now) made.0 workplace.new.shelf) }
    ensures ready { IsReady totalled.now workplace.new }
{
    let tables = totalled.tables();
    let cells = totalled.master_cells();
    let reply = desk_reply(tables, cells, workplace, look)?;
    Ok((reply, List::new(workplace.alloc)))
}

/// The reply to a look at the desk, where the masters so far have so many cells.
fn desk_reply(
    tables: &Tables,
    cells: u64,
    workplace: &mut Workplace,
    look: &DeskLook,
) -> Result<Reply, Stop>
    requires ready { IsReady (rows_of tables.now) workplace.old }
    requires cells { cells ≡ master_cells tables.now.masters.items }
    requires few { cells < 2 ^ 63 }
    ensures answers { Answers result (desk_reply (rows_of tables.now) look.now) }
    ensures ready { IsReady (rows_of tables.now) workplace.new }
{
    match look {
        DeskLook::Report => { Ok(Reply::Report(desk_report(tables, workplace)?)) }
        DeskLook::Derive {
            edition,
            version,
            master,
            pairs,
        } => {
            let pairs = pairs.as_slice();
            Ok(Reply::Derived(derived_sheet(tables, workplace, edition, *version, master, pairs)?))
        }
        DeskLook::Published => Ok(Reply::Catalogue(catalogue(workplace.alloc, tables)?)),
        DeskLook::Edition { edition, version } => {
            Ok(Reply::Edition(edition_shown(workplace.alloc, tables, edition, *version)?))
        }
        DeskLook::Row {
            master,
            version,
            row,
        } => Ok(Reply::MasterRow(row_shown(workplace.alloc, tables, master, *version, *row)?)),
        DeskLook::Region {
            edition,
            version,
            region,
        } => Ok(Reply::Region(region_shown(tables, workplace, edition, *version, *region)?)),
        DeskLook::Body {
            what,
            name,
            version,
        } => Ok(Reply::Body(*what, body_of(tables, *what, name, *version)?)),
        DeskLook::Contradictions {
            edition,
            version,
            rule,
        } => Ok(Reply::Contradictions(contradictions_shown(
            tables, workplace, edition, *version, rule,
        )?)),
        DeskLook::Check(proposal) => checked(workplace.alloc, tables, cells, proposal),
        DeskLook::Dump => Ok(Reply::Dump(tables.copy_rows(workplace.alloc)?)),
    }
}
