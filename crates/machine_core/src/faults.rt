//! The faults of readers as refusals.
ghost use Rattle.std.specs.Prelude.{◌≡◌, ◌≢◌, IfOk};
ghost use Rattle.master_rows.specs.Master.{IsMaster};
ghost use Rattle.master_rows.specs.Outline.{read_outline};
ghost use Rattle.master_rows.specs.Sheet.{read_sheet};
ghost use Rattle.rule_text.specs.Reading.{read_rules};
ghost use Rattle.rule_text.specs.Rulebooks.{IsRulebook};
ghost use Rattle.schema_core.specs.Reading.{schema_of};
ghost use Rattle.schema_core.specs.Schemas.{IsSchema};
ghost use Rattle.machine_core.specs.Checked.{value_or};
ghost use Rattle.machine_core.specs.Faults.{bind_refusal, rules_refusal, schema_refusal, sheet_refusal};
ghost use Rattle.machine_core.specs.Outcomes.{Finds, IfRefused};

use crate::stop::Stop;
use desk_words::{Reader, Refusal};
use master_rows::{Master, Outline, SheetFault};
use rule_text::{BindFault, RuleFault, Rulebook};
use schema_core::{Schema, SchemaFault};
use std::alloc::Global;

/// The schema of a body.
pub fn read_schema(alloc: Global, body: &[u8]) -> Result<Schema, Stop>
    ensures finds { Finds result (value_or (schema_of body.now) schema_refusal) }
    ensures sound { IfOk result IsSchema }
{
    match Schema::read(alloc, body) {
        Ok(schema) => Ok(schema),
        Err(fault) => Err(schema_stop(fault)),
    }
}

/// The master of a sheet.
pub fn read_master(alloc: Global, body: &[u8]) -> Result<Master, Stop>
    ensures finds { Finds result (value_or (read_sheet body.now) sheet_refusal) }
    ensures sound { IfOk result IsMaster }
{
    match Master::read(alloc, body) {
        Ok(master) => Ok(master),
        Err(fault) => Err(sheet_stop(fault)),
    }
}

/// The columns of the master of a sheet, and how many rows it has.
pub(crate) fn read_outline(alloc: Global, body: &[u8]) -> Result<Outline, Stop>
    ensures { Finds result (value_or (read_outline body.now) sheet_refusal) }
{
    match Master::outline(alloc, body) {
        Ok(outline) => Ok(outline),
        Err(fault) => Err(sheet_stop(fault)),
    }
}

/// The rulebook of a body over a schema.
pub fn read_rulebook(alloc: Global, body: &[u8], schema: &Schema) -> Result<Rulebook, Stop>
    requires { IsSchema schema.now }
    ensures finds { Finds result (value_or (read_rules body.now schema.now) rules_refusal) }
    ensures sound { IfOk result (IsRulebook schema.now) }
{
    match rule_text::read(alloc, body, schema) {
        Ok(rulebook) => Ok(rulebook),
        Err(fault) => Err(rules_stop(fault)),
    }
}

/// That a body is no schema. Want of memory is told only where it is the reader's.
fn schema_stop(fault: SchemaFault) -> Stop
    ensures refused { IfRefused result
        (λ refusal. (refusal ≡ schema_refusal fault) × (fault ≢ SchemaFault.NoMemory)) }
    ensures memory { result ≡ Stop.NoMemory → fault ≡ SchemaFault.NoMemory }
{
    let (code, first) = match fault {
        SchemaFault::NotToml => (1, 0),
        SchemaFault::UnknownKey => (7, 0),
        SchemaFault::MissingKey(key) => (2, key),
        SchemaFault::WrongKind(key) => (3, key),
        SchemaFault::BadName(position) => (4, position),
        SchemaFault::BadCount(count) => (6, count),
        SchemaFault::Twice(position) => (5, position),
        SchemaFault::NoMemory => return Stop::NoMemory,
    };
    Stop::Refused(Refusal::BadText(Reader::Schema, code, first, 0))
}

/// That a body is no sheet. Want of memory is told only where it is the reader's.
pub(crate) fn sheet_stop(fault: SheetFault) -> Stop
    ensures refused { IfRefused result
        (λ refusal. (refusal ≡ sheet_refusal fault) × (fault ≢ SheetFault.NoMemory)) }
    ensures memory { result ≡ Stop.NoMemory → fault ≡ SheetFault.NoMemory }
{
    let (code, first, second) = match fault {
        SheetFault::NotUtf8(row) => (1, row, 0),
        SheetFault::NoHeader => (2, 0, 0),
        SheetFault::BadColumn(column) => (3, column, 0),
        SheetFault::ColumnTwice(column) => (4, column, 0),
        SheetFault::Ragged(row) => (5, row, 0),
        SheetFault::CellLong(row, column) => (6, row, column),
        SheetFault::TooManyRows => (7, 0, 0),
        SheetFault::TooManyColumns => (8, 0, 0),
        SheetFault::NoMemory => return Stop::NoMemory,
    };
    Stop::Refused(Refusal::BadText(Reader::Sheet, code, first, second))
}

/// That a body is no rulebook. Want of memory is told only where it is the reader's.
fn rules_stop(fault: RuleFault) -> Stop
    ensures refused { IfRefused result
        (λ refusal. (refusal ≡ rules_refusal fault) × (fault ≢ RuleFault.NoMemory)) }
    ensures memory { result ≡ Stop.NoMemory → fault ≡ RuleFault.NoMemory }
{
    let (code, line, column) = match fault {
        RuleFault::Syntax(line, column) => (1, line, column),
        RuleFault::UnknownAttr(line, column) => (2, line, column),
        RuleFault::HeadInKeys(line, column) => (3, line, column),
        RuleFault::HeadInWhen(line, column) => (4, line, column),
        RuleFault::AttrTwice(line, column) => (5, line, column),
        RuleFault::NameTwice(line, column) => (6, line, column),
        RuleFault::TooMany(line, column) => (7, line, column),
        RuleFault::ConstantLong(line, column) => (8, line, column),
        RuleFault::NoMemory => return Stop::NoMemory,
    };
    Stop::Refused(Refusal::BadText(Reader::Rules, code, line, column))
}

/// That a rulebook does not bind. Want of memory is told only where it is the binding's.
pub(crate) fn bind_stop(fault: BindFault) -> Stop
    ensures refused { IfRefused result
        (λ refusal. (refusal ≡ bind_refusal fault) × (fault ≢ BindFault.NoMemory)) }
    ensures memory { result ≡ Stop.NoMemory → fault ≡ BindFault.NoMemory }
{
    let (code, rule, position) = match fault {
        BindFault::NoMaster(rule) => (9, rule, 0),
        BindFault::NoColumn(rule, position) => (10, rule, position),
        BindFault::NoMemory => return Stop::NoMemory,
    };
    Stop::Refused(Refusal::BadText(Reader::Bind, code, rule, position))
}
