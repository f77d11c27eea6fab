//! From a rulebook and the masters that it names to a kit.
ghost use Rattle.std.specs.Prelude.{◌≡◌, ◌≢◌, ◌+◌, ◌<◌, length, map, Ok, Err, Some, None, IfOk, IfErr};
ghost use Rattle.std.specs.Prelude.{IfSome};
ghost use Rattle.fix_model.specs.Valid.{IsValid};
ghost use Rattle.schema_core.specs.Schemas.{IsSchema};
ghost use Rattle.desk_base.specs.declared.limits.TheConstants.{MAX_SHEET_ROWS};
ghost use Rattle.master_rows.specs.Master.{IsMasterWithin};
ghost use Rattle.rule_text.specs.Rulebooks.{IsRulebook};
ghost use Rattle.rule_text.specs.Binding.{AreMasters, AreFolded, master_of, column_of, keys_fault, line_fault};
ghost use Rattle.rule_text.specs.Binding.{first_fault, bound_key, rule_of, bound};
ghost use Rattle.rule_text.specs.declared.binding.BindFault.TheVariants as fault;

use crate::rulebook::{RuleLine, Rulebook};
use desk_base::{Duplicate, Grid, List, NoMemory, Text, flags_of, place_of};
use fix_model::{Kit, Rule};
use master_rows::Master;
use schema_core::Schema;
use std::alloc::Global;
use thiserror::Error;

/// Why a rulebook cannot be bound: the first name, rule by rule, that nothing has. Rules count from 1.
#[derive(Clone, Copy, Debug, PartialEq, Eq, Error)]
pub enum BindFault {
    /// No master has the name that this rule looks into.
    #[error("no master has the name that rule {0} looks into")]
    NoMaster(u64),
    /// The master of this rule has no column of the name at this position: 1, 2 and so on for the keys,
    /// which are tested first, and 0 for the column of the head.
    #[error("the master of rule {0} has no column of the name at position {1}")]
    NoColumn(u64, u64),
    /// There was no memory. It may come in place of any other answer.
    #[error("there was no memory")]
    NoMemory,
}

impl From<NoMemory> for BindFault {
    ghost from_gives = { λ _ result. result ≡ fault.NoMemory };

    fn from(_fault: NoMemory) -> BindFault {
        BindFault::NoMemory
    }
}

/// Binds the rules of a rulebook to the masters and columns that they name, which gives a valid kit.
/// `folded` has the attributes, from 0 and in ascending order, that keys and conditions compare without
/// regard to ASCII case.
#[tactic(auto, unfolding(crate::specs::Binding::bound))]
pub fn bind(
    alloc: Global,
    rulebook: &Rulebook,
    schema: &Schema,
    masters: &[(Text, Master)],
    folded: &[u16],
) -> Result<Kit, BindFault>
    requires schema { IsSchema schema.now }
    requires rulebook { IsRulebook schema.now rulebook.now }
    requires masters { AreMasters masters.now }
    requires folded { AreFolded schema.now folded.now }
    ensures kit { IfOk result (λ kit.
        bound rulebook.now schema.now masters.now folded.now ≡ Ok kit) }
    ensures valid { IfOk result IsValid }

    // Each refusal but want of memory, exactly where it comes.
    ensures fault { IfErr result (λ fault. fault ≢ BindFault.NoMemory
        → bound rulebook.now schema.now masters.now folded.now ≡ Err fault) }
{
    let rules = rules_of(alloc, masters, rulebook.lines.as_slice())?;
    let grids = grids_of(alloc, masters)?;
    let width = schema.attributes.len() as u16;
    let flags = flags_of(alloc, width, folded)?;
    Ok(Kit {
        width,
        rules,
        masters: grids,
        folded: flags,
    })
}

/// The rules of all lines.
fn rules_of(
    alloc: Global,
    masters: &[(Text, Master)],
    lines: &[RuleLine],
) -> Result<List<Rule>, BindFault>
    requires { AreMasters masters.now }
    ensures found { IfOk result (λ rules. first_fault masters.now 1 lines.now ≡ None) }
    ensures rules { IfOk result (λ rules. rules ≡ map (rule_of masters.now) lines.now) }
    ensures fault { IfErr result (λ fault. fault ≢ BindFault.NoMemory
        → first_fault masters.now 1 lines.now ≡ Some fault) }
{
    let mut rules = List::new(alloc);
    'lines: for (place, line) in lines.iter().enumerate() {
        rules.push(rule_of(alloc, masters, place as u64 + 1, line)?)?;
    }
    Ok(rules)
}

/// The rule of a line, which has this number.
fn rule_of(
    alloc: Global,
    masters: &[(Text, Master)],
    number: u64,
    line: &RuleLine,
) -> Result<Rule, BindFault>
    requires { AreMasters masters.now }
    ensures found { IfOk result (λ rule. line_fault masters.now number line.now ≡ None) }
    ensures rule { IfOk result (λ rule. rule ≡ rule_of masters.now line.now) }
    ensures fault { IfErr result (λ fault. fault ≢ BindFault.NoMemory
        → line_fault masters.now number line.now ≡ Some fault) }
{
    let Some(place) = master_of(masters, &line.master) else {
        return Err(BindFault::NoMaster(number));
    };
    let master = &masters[usize::from(place)].1;
    let keys = keys_of(alloc, number, master, line.keys.as_slice())?;
    let Some(from) = column_of(master, &line.from) else {
        return Err(BindFault::NoColumn(number, 0));
    };
    Ok(Rule {
        keys,
        head: line.head,
        from,
        master: place,
        conds: line.conds.copy()?,
    })
}

/// The keys of the rule of this number, each with the place of its column.
fn keys_of(
    alloc: Global,
    number: u64,
    master: &Master,
    keys: &[(u16, Text)],
) -> Result<List<(u16, u16)>, BindFault>
    requires { IsMasterWithin MAX_SHEET_ROWS master.now }
    ensures found { IfOk result (λ bound. keys_fault number master.now 1 keys.now ≡ None) }
    ensures keys { IfOk result (λ bound. bound ≡ map (bound_key master.now) keys.now) }
    ensures fault { IfErr result (λ fault. fault ≢ BindFault.NoMemory
        → keys_fault number master.now 1 keys.now ≡ Some fault) }
{
    let mut bound = List::new(alloc);
    'keys: for (place, key) in keys.iter().enumerate() {
        let Some(column) = column_of(master, &key.1) else {
            return Err(BindFault::NoColumn(number, place as u64 + 1));
        };
        bound.push((key.0, column))?;
    }
    Ok(bound)
}

/// The place of the master of this name, from 0.
fn master_of(masters: &[(Text, Master)], name: &Text) -> Option<u16>
    requires { AreMasters masters.now }
    ensures found { result ≡ master_of masters.now name.now }
    ensures within { IfSome result (λ place. place < length masters.now) }
{
    match master_named(masters, name) {
        Some(place) => Some(place as u16),
        None => None,
    }
}

/// The place of the first of these masters that has this name, counted from 0.
pub fn master_named(masters: &[(Text, Master)], name: &Text) -> Option<usize>
    ensures found { result ≡ master_of masters.now name.now }
    ensures within { IfSome result (λ place. place < length masters.now) }
{
    masters
        .iter()
        .position(|master| name.as_str() == master.0.as_str())
}

/// The place of the master's column of this name, from 0.
fn column_of(master: &Master, name: &Text) -> Option<u16>
    requires { IsMasterWithin MAX_SHEET_ROWS master.now }
    ensures { result ≡ column_of master.now name.now }
{
    match place_of(master.columns.as_slice(), name.as_str()) {
        Some(place) => Some(place as u16),
        None => None,
    }
}

/// The rows of all masters.
fn grids_of(alloc: Global, masters: &[(Text, Master)]) -> Result<List<Grid>, NoMemory>
    ensures { IfOk result (λ grids. grids ≡ map (λ master. master.1.grid) masters.now) }
{
    let mut grids = List::new(alloc);
    'masters: for master in masters {
        grids.push(master.1.grid.copy()?)?;
    }
    Ok(grids)
}
