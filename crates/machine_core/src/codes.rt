//! The faults of readers by the codes and numbers of their refusals.
ghost use Rattle.std.specs.Prelude.{◌≡◌};
ghost use Rattle.machine_core.specs.Codes.{bind_fault, rules_fault, schema_fault, sheet_fault};

use master_rows::SheetFault;
use rule_text::{BindFault, RuleFault};
use schema_core::SchemaFault;

/// The fault of a body that is no schema.
pub(crate) fn schema_fault(code: u64, one: u64) -> SchemaFault
    ensures { result ≡ schema_fault code one }
{
    match code {
        1 => SchemaFault::NotToml,
        2 => SchemaFault::MissingKey(one),
        3 => SchemaFault::WrongKind(one),
        4 => SchemaFault::BadName(one),
        5 => SchemaFault::Twice(one),
        6 => SchemaFault::BadCount(one),
        _ => SchemaFault::UnknownKey,
    }
}

/// The fault of a body that is no sheet.
pub(crate) fn sheet_fault(code: u64, one: u64, other: u64) -> SheetFault
    ensures { result ≡ sheet_fault code one other }
{
    match code {
        1 => SheetFault::NotUtf8(one),
        2 => SheetFault::NoHeader,
        3 => SheetFault::BadColumn(one),
        4 => SheetFault::ColumnTwice(one),
        5 => SheetFault::Ragged(one),
        6 => SheetFault::CellLong(one, other),
        7 => SheetFault::TooManyRows,
        _ => SheetFault::TooManyColumns,
    }
}

/// The fault of a body that is no rulebook.
pub(crate) fn rules_fault(code: u64, line: u64, column: u64) -> RuleFault
    ensures { result ≡ rules_fault code line column }
{
    match code {
        1 => RuleFault::Syntax(line, column),
        2 => RuleFault::UnknownAttr(line, column),
        3 => RuleFault::HeadInKeys(line, column),
        4 => RuleFault::HeadInWhen(line, column),
        5 => RuleFault::AttrTwice(line, column),
        6 => RuleFault::NameTwice(line, column),
        7 => RuleFault::TooMany(line, column),
        _ => RuleFault::ConstantLong(line, column),
    }
}

/// The fault of a rulebook that does not bind.
pub(crate) fn bind_fault(code: u64, rule: u64, position: u64) -> BindFault
    ensures { result ≡ bind_fault code rule position }
{
    if code == 9 {
        BindFault::NoMaster(rule)
    } else {
        BindFault::NoColumn(rule, position)
    }
}
