//! Sheets of master data, and what is said of those that are none.
ghost use Rattle.master_rows.specs.Master.{IsMaster};

use crate::schemas::{add_lines, says};
use desk_base::{Duplicate, MAX_ROWS};
use desk_cases::{Answer, Case};
use fault_sentences::sheet_sentence;
use master_rows::{Master, Outline, SheetFault};
use std::alloc::AllocError;
use std::test::Fail;

/// The sheet that a copy of the master is printed as; or the fault, which its outline has to have too.
pub fn sheet(case: &Case, answer: &mut Answer) -> Result<(), Fail> {
    match Master::read(answer.alloc(), case.bytes("sheet")?) {
        Ok(master) => add_print(&master, answer),
        Err(fault) => {
            if Master::outline(answer.alloc(), case.bytes("sheet")?).err() != Some(fault) {
                return Err(Fail::new("the outline of a sheet has another fault"));
            }
            add_fault(fault, answer)
        }
    }
}

fn add_print(master: &Master, answer: &mut Answer) -> Result<(), Fail>
    requires { IsMaster master.now }
{
    let copy = master.copy()?;
    let printed = copy.print()?;
    answer.bytes("wanted", printed.as_slice())
}

/// How many columns and rows the outline of the master has; or the fault.
pub fn sheet_size(case: &Case, answer: &mut Answer) -> Result<(), Fail> {
    match Master::outline(answer.alloc(), case.bytes("sheet")?) {
        Ok(outline) => add_size(&outline, answer),
        Err(fault) => add_fault(fault, answer),
    }
}

fn add_size(outline: &Outline, answer: &mut Answer) -> Result<(), Fail> {
    let columns = outline.columns.len();
    let size = format!(in answer.alloc(); "{columns} columns, {} rows", outline.rows)?;
    answer.text("wanted", size.as_str())
}

/// The columns of the master, and each cell with its row and column, counted from 1; or the fault.
pub fn sheet_cells(case: &Case, answer: &mut Answer) -> Result<(), Fail> {
    match Master::read(answer.alloc(), case.bytes("sheet")?) {
        Ok(master) => add_cells(&master, answer),
        Err(fault) => add_fault(fault, answer),
    }
}

fn add_cells(master: &Master, answer: &mut Answer) -> Result<(), Fail> {
    let mut lines = String::new(answer.alloc());
    add_lines(&mut lines, master.columns.as_slice())?;
    tell_cells(&mut lines, master)?;
    answer.text("wanted", lines.as_str())
}

fn tell_cells(lines: &mut String, master: &Master) -> Result<(), AllocError> {
    for row in 0..master.grid.rows() {
        for column in 0..master.grid.columns() {
            let (row_number, column_number) = (u64::from(row) + 1, u64::from(column) + 1);
            write!(lines, "{row_number} {column_number} ")?;
            lines.push_str(master.grid.cell(row, column))?;
            lines.push_str("\n")?;
        }
    }
    Ok(())
}

fn add_fault(fault: SheetFault, answer: &mut Answer) -> Result<(), Fail> {
    if fault == SheetFault::NoMemory {
        return Err(Fail::new("there was no memory"));
    }
    answer.shown("wanted", &fault)
}

/// What is said of a sheet that is no master.
pub fn sheet_said(case: &Case, answer: &mut Answer) -> Result<(), Fail> {
    let sheet = case.bytes("sheet")?;
    match Master::read(answer.alloc(), sheet).err() {
        None => answer.text("says", "a master"),
        Some(fault) => says(
            &sheet_sentence(answer.alloc(), fault, MAX_ROWS, sheet)?,
            answer,
        ),
    }
}
