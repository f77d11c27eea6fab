//! The record of a case, with its confirmed attributes.
ghost use Rattle.std.specs.Prelude.{◌≡◌, length, codes, IfOk, IsErrOf, Some, None};
ghost use Rattle.fix_model.specs.declared.kit.Kit.{Kit as KitOf};
ghost use Rattle.fix_model.specs.States.{Fits};
ghost use Rattle.serde_json.specs.View.{view};
ghost use Rattle.json_parts.specs.Parts.{field};
ghost use Rattle.case_json.specs.Records.{flags_in, record_in, state_in};

use crate::attributes::Attributes;
use desk_base::{List, Text, flags_of};
use fix_model::State;
use json_parts::{Part, PartFault, read_field};
use serde_json::Value;
use std::alloc::Global;

/// The flags of the attributes that the value lists.
pub fn listed(
    alloc: Global,
    attributes: &Attributes,
    value: &Value,
) -> Result<List<bool>, PartFault>
    ensures flags { IfOk result (λ made. flags_in attributes.now (view value.now) ≡ Some made) }
    ensures none { IsErrOf result PartFault.WrongForm → flags_in attributes.now (view value.now) ≡ None }
    ensures full { IfOk result (λ made. length made ≡ length attributes.now) }
{
    let places = List::<u16>::read(alloc, attributes, value)?;
    Ok(flags_of(alloc, attributes.count(), places.as_slice())?)
}

/// The typed texts, one for each attribute.
pub fn typed(alloc: Global, attributes: &Attributes, value: &Value) -> Result<List<Text>, PartFault>
    ensures typed { IfOk result (λ typed.
        field (codes "record") (record_in attributes.now) (view value.now) ≡ Some typed) }
    ensures none { IsErrOf result PartFault.WrongForm
        → field (codes "record") (record_in attributes.now) (view value.now) ≡ None }
    ensures full { IfOk result (λ typed. length typed ≡ length attributes.now) }
{
    let texts = read_field::<(), List<Text>>(alloc, &(), "record", value)?;
    if texts.len() == usize::from(attributes.count()) {
        Ok(texts)
    } else {
        Err(PartFault::WrongForm)
    }
}

/// The flags of the confirmed attributes.
pub fn confirmed(
    alloc: Global,
    attributes: &Attributes,
    value: &Value,
) -> Result<List<bool>, PartFault>
    ensures confirmed { IfOk result (λ made.
        field (codes "confirmed") (flags_in attributes.now) (view value.now) ≡ Some made) }
    ensures none { IsErrOf result PartFault.WrongForm
        → field (codes "confirmed") (flags_in attributes.now) (view value.now) ≡ None }
    ensures full { IfOk result (λ made. length made ≡ length attributes.now) }
{
    match value.get("confirmed") {
        Some(words) => listed(alloc, attributes, words),
        None => Err(PartFault::WrongForm),
    }
}

/// The record with its confirmed attributes.
pub fn state(alloc: Global, attributes: &Attributes, value: &Value) -> Result<State, PartFault>
    ensures state { IfOk result (λ state. state_in attributes.now (view value.now) ≡ Some state) }
    ensures none { IsErrOf result PartFault.WrongForm → state_in attributes.now (view value.now) ≡ None }
    ensures fits { IfOk result (λ state. (kit : KitOf) → length attributes.now ≡ kit.width → Fits kit state) }
{
    let typed = typed(alloc, attributes, value)?;
    let confirmed = confirmed(alloc, attributes, value)?;
    Ok(State::new(alloc, typed, confirmed.as_slice())?)
}
