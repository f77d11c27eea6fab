//! The names with which what a bound kit does is told.
ghost use Rattle.std.specs.Prelude.{◌≡◌, map, IfOk};
ghost use Rattle.rule_text.specs.Names.{names_in};

use crate::rulebook::{RuleLine, Rulebook};
use desk_base::{Duplicate, List, NoMemory, Text};
use fix_model::Names;
use master_rows::Master;
use schema_core::Schema;
use std::alloc::Global;

/// The words of the attributes, the names of the rules and those of the masters, each in their order.
pub fn names_in(
    alloc: Global,
    schema: &Schema,
    rulebook: &Rulebook,
    masters: &[(Text, Master)],
) -> Result<Names, NoMemory>
    ensures { IfOk result (λ names. names ≡ names_in schema.now rulebook.now masters.now) }
{
    Ok(Names {
        attributes: schema.attributes.copy()?,
        rules: rule_names(alloc, rulebook.lines.as_slice())?,
        masters: master_names(alloc, masters)?,
    })
}

/// The names of rules, in their order.
pub fn rule_names(alloc: Global, lines: &[RuleLine]) -> Result<List<Text>, NoMemory>
    ensures { IfOk result (λ names. names ≡ map (λ line. line.name) lines.now) }
{
    let mut names = List::new(alloc);
    'lines: for line in lines {
        names.push(line.name.copy()?)?;
    }
    Ok(names)
}

/// The names of masters, in their order.
fn master_names(alloc: Global, masters: &[(Text, Master)]) -> Result<List<Text>, NoMemory>
    ensures { IfOk result (λ names. names ≡ map (λ master. master.0) masters.now) }
{
    let mut names = List::new(alloc);
    'masters: for master in masters {
        names.push(master.0.copy()?)?;
    }
    Ok(names)
}
