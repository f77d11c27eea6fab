//! The rules of a case with their master data and its folded attributes.
ghost use Rattle.std.specs.Prelude.{◌≡◌, length, codes, IfOk, IsErrOf, Some, None};
ghost use Rattle.serde_json.specs.Find.{get};
ghost use Rattle.serde_json.specs.View.{view};
ghost use Rattle.case_json.specs.Kits.{folded_of, kit_in};

use crate::attributes::Attributes;
use crate::masters::masters_of;
use crate::records::listed;
use desk_base::{List, flags_of};
use fix_model::Kit;
use json_parts::{PartFault, read_field};
use serde_json::Value;
use std::alloc::Global;

/// The flags of the folded attributes.
pub fn folded(
    alloc: Global,
    attributes: &Attributes,
    value: &Value,
) -> Result<List<bool>, PartFault>
    ensures folded { IfOk result (λ made.
        folded_of attributes.now (get (codes "folded") (view value.now)) ≡ Some made) }
    ensures none { IsErrOf result PartFault.WrongForm
        → folded_of attributes.now (get (codes "folded") (view value.now)) ≡ None }
{
    match value.get("folded") {
        Some(words) => listed(alloc, attributes, words),
        None => Ok(flags_of(alloc, attributes.count(), &[])?),
    }
}

/// The rules and masters over these attributes, valid or not. The masters are read last, since they are taken out of
/// the value.
pub fn kit(alloc: Global, attributes: &Attributes, value: Value) -> Result<Kit, PartFault>
    ensures kit { IfOk result (λ kit. kit_in attributes.now (view value) ≡ Some kit) }
    ensures none { IsErrOf result PartFault.WrongForm → kit_in attributes.now (view value) ≡ None }
    ensures width { IfOk result (λ kit. kit.width ≡ length attributes.now) }
{
    let rules = read_field(alloc, attributes, "rules", &value)?;
    let folded = folded(alloc, attributes, &value)?;
    let masters = masters_of(alloc, value)?;
    Ok(Kit {
        width: attributes.count(),
        rules,
        masters,
        folded,
    })
}
