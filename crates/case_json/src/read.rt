//! Reading a case from its bytes.
ghost use Rattle.std.specs.Prelude.{◌≡◌, IfOk, IsErrOf, Some, None};
ghost use Rattle.serde_json.specs.View.{view};
ghost use Rattle.case_json.specs.declared.case.Case.{Case};
ghost use Rattle.case_json.specs.declared.read.CaseFault.TheVariants as faults;
ghost use Rattle.case_json.specs.Cases.{IsCaseIn, IsCaseOf, IsNoCase, IsNotJson, PartsFit, has_case_keys, parts_of};

use crate::attributes::Attributes;
use crate::case::Case;
use crate::kits::kit;
use crate::records::state;
use desk_base::{NoMemory, are_distinct};
use json_parts::{PartFault, has_keys, json_of, read_field};
use serde_json::Value;
use std::alloc::Global;
use thiserror::Error;

/// Why some bytes are read as no case.
#[derive(Clone, Copy, Debug, PartialEq, Eq, Error)]
pub enum CaseFault {
    /// They are no JSON.
    #[error("the bytes are no JSON")]
    NotJson,
    /// They are JSON, and its value is no case.
    #[error("the JSON is no case")]
    NotACase,
    /// There was no memory.
    #[error("there was no memory")]
    NoMemory,
}

impl From<NoMemory> for CaseFault {
    ghost from_gives = { λ _ fault. fault ≡ faults.NoMemory };

    fn from(_want: NoMemory) -> CaseFault {
        CaseFault::NoMemory
    }
}

/// The parts of a case, whose attributes may stand twice and whose kit need not be valid.
fn parts(alloc: Global, value: Value) -> Result<Case, PartFault>
    ensures parts { IfOk result (λ case. parts_of (view value) ≡ Some case) }
    ensures none { IsErrOf result PartFault.WrongForm → parts_of (view value) ≡ None }
    ensures fits { IfOk result PartsFit }
{
    let attributes: Attributes = read_field(alloc, &(), "attributes", &value)?;
    let state = state(alloc, &attributes, &value)?;
    let kit = kit(alloc, &attributes, value)?;
    Ok(Case {
        attributes: attributes.into_words(),
        kit,
        state,
    })
}

pub fn has_case_keys(value: &Value) -> bool
    ensures { result ≡ has_case_keys (view value.now) }
{
    has_keys(
        value,
        &["attributes", "confirmed", "masters", "record", "rules"],
    ) || has_keys(
        value,
        &[
            "attributes",
            "confirmed",
            "folded",
            "masters",
            "record",
            "rules",
        ],
    )
}

/// The case that the value is.
fn case_in(alloc: Global, value: Value) -> Result<Case, PartFault>
    ensures case { IfOk result (λ case. IsCaseOf (view value) case) }
    ensures fits { IfOk result PartsFit }
    ensures none { IsErrOf result PartFault.WrongForm → ((case : Case) → ¬ IsCaseOf (view value) case) }
{
    if !has_case_keys(&value) {
        return Err(PartFault::WrongForm);
    }
    let case = parts(alloc, value)?;
    if are_distinct(case.attributes.as_slice()) && case.kit.valid() {
        Ok(case)
    } else {
        Err(PartFault::WrongForm)
    }
}

/// The case that the bytes are, as JSON (docs/formats.md, *The case of `fixdesk once`*).
pub fn case_of(alloc: Global, bytes: &[u8]) -> Result<Case, CaseFault>
    ensures case { IfOk result (λ case. IsCaseIn bytes.now case) }
    ensures fits { IfOk result PartsFit }

    // Each refusal, only where it comes.
    ensures not_json { IsErrOf result CaseFault.NotJson → IsNotJson bytes.now }
    ensures not_a_case { IsErrOf result CaseFault.NotACase → IsNoCase bytes.now }
{
    let Some(value) = json_of(alloc, bytes)? else {
        return Err(CaseFault::NotJson);
    };
    match case_in(alloc, value) {
        Ok(case) => Ok(case),
        Err(PartFault::WrongForm) => Err(CaseFault::NotACase),
        Err(PartFault::NoMemory) => Err(CaseFault::NoMemory),
    }
}
