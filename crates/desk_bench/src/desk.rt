//! What is read and bound, each part with its time.
ghost use Rattle.std.specs.Prelude.{IfOk};
ghost use Rattle.desk_base.specs.declared.limits.TheConstants.{MAX_SHEET_ROWS};
ghost use Rattle.fix_model.specs.Valid.{IsValid};
ghost use Rattle.master_rows.specs.Master.{IsMasterWithin};
ghost use Rattle.rule_text.specs.Rulebooks.{IsRulebook};
ghost use Rattle.schema_core.specs.Schemas.{IsSchema};

use crate::sizes::Sizes;
use crate::texts::{SCHEMA, paired_text, rules_text, sheet_text};
use desk_base::{MAX_SHEET_ROWS, Text};
use fix_model::Kit;
use master_rows::Master;
use rule_text::{Rulebook, bind, read};
use schema_core::Schema;
use std::alloc::Global;
use std::io;
use std::test::Fail;
use std::time::{CpuClock, Duration};

/// The processor time that was used so far.
pub fn clock(rt: &impl CpuClock) -> io::Result<Duration> {
    rt.thread_cpu_time()
}

/// Tells how much processor time a part took that began at this time.
pub fn tell(rt: &(impl Eprint + CpuClock), part: &str, start: Duration) -> io::Result<()> {
    let taken = clock(rt)?.saturating_sub(start);
    eprintln!(rt; "{part}: {taken:?}")
}

/// The kit of so many rules and rows.
pub fn kit_of<R: Eprint + CpuClock>(rt: &R, alloc: Global, sizes: Sizes) -> Result<Kit, Fail>
    ensures { IfOk result IsValid }
{
    let sheet = sheet_text(alloc, sizes.rows)?;
    kit_over(rt, alloc, sizes.rules, sheet.as_str())
}

/// The kit of one rule over a master of so many rows that contradict each other in pairs.
pub fn paired_kit<R: Eprint + CpuClock>(rt: &R, alloc: Global, rows: u32) -> Result<Kit, Fail>
    ensures { IfOk result IsValid }
{
    let sheet = paired_text(alloc, rows)?;
    kit_over(rt, alloc, 1, sheet.as_str())
}

/// The kit of so many rules over the master that a sheet is.
fn kit_over<R: Eprint + CpuClock>(
    rt: &R,
    alloc: Global,
    rules: u32,
    sheet: &str,
) -> Result<Kit, Fail>
    ensures { IfOk result IsValid }
{
    let schema = Schema::read(alloc, SCHEMA)?;
    let book = book_of(rt, alloc, &schema, rules)?;
    bound(rt, alloc, &schema, &book, sheet)
}

/// The kit of a rulebook over the master that a sheet is.
fn bound<R: Eprint + CpuClock>(
    rt: &R,
    alloc: Global,
    schema: &Schema,
    book: &Rulebook,
    sheet: &str,
) -> Result<Kit, Fail>
    requires schema { IsSchema schema.now }
    requires rulebook { IsRulebook schema.now book.now }
    ensures { IfOk result IsValid }
{
    let name = Text::new(alloc, b"m")?;
    let masters = [(name, master_of(rt, alloc, sheet)?)];
    let start = clock(rt)?;
    let kit = bind(alloc, book, schema, &masters, &[])?;
    tell(rt, "binding them", start)?;
    Ok(kit)
}

fn book_of<R: Eprint + CpuClock>(
    rt: &R,
    alloc: Global,
    schema: &Schema,
    rules: u32,
) -> Result<Rulebook, Fail>
    requires { IsSchema schema.now }
    ensures { IfOk result (IsRulebook schema.now) }
{
    let text = rules_text(alloc, rules)?;
    let start = clock(rt)?;
    let book = read(alloc, text.as_bytes(), schema)?;
    tell(rt, "reading the rules", start)?;
    Ok(book)
}

fn master_of<R: Eprint + CpuClock>(rt: &R, alloc: Global, sheet: &str) -> Result<Master, Fail>
    ensures { IfOk result (IsMasterWithin MAX_SHEET_ROWS) }
{
    let start = clock(rt)?;
    let master = Master::read_within(alloc, MAX_SHEET_ROWS, sheet.as_bytes())?;
    tell(rt, "reading the sheet", start)?;
    Ok(master)
}
