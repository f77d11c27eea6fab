//! Whether a step may be made.
ghost use Rattle.std.specs.Prelude.{◌<◌, length};
ghost use Rattle.fix_model.specs.States.{Fits};
ghost use Rattle.fix_model.specs.Valid.{IsValid};

use crate::record::record_of;
use case_json::Case as Record;
use desk_base::Steps;
use desk_cases::{Answer, Case};
use fix_model::{Book, ListBook, Step, fires};
use std::alloc::Global;
use std::test::Fail;

/// Whether the step of the case fires, and whether some row agrees with the record at the rule's covered keys.
pub fn told(case: &Case, answer: &mut Answer) -> Result<(), Fail> {
    let step = step(answer.alloc(), case)?;
    let record = record_of(answer.alloc(), case)?;
    told_of(record, step, answer)
}

/// The same of a record.
fn told_of(given: Record, step: Step, answer: &mut Answer) -> Result<(), Fail>
    requires valid { IsValid given.kit }
    requires fits { Fits given.kit given.state }
{
    if usize::from(step.rule) >= given.kit.rules.len() {
        return Err(Fail::new("the step is by no rule"));
    }
    let is_made = fires(&given.kit, &given.state, step);
    let agrees = agrees(given, step.rule);
    answer.truth("fires", is_made)?;
    answer.truth("agrees", agrees)
}

/// Whether some row agrees with the record at the rule's covered keys.
fn agrees(given: Record, rule: u16) -> bool
    requires valid { IsValid given.kit }
    requires fits { Fits given.kit given.state }
    requires within { rule < length given.kit.rules }
{
    let Record { kit, state, .. } = given;
    ListBook::new(kit).agrees(rule, &state, &mut Steps::new(()))
}

/// The rule and the row of the part `step`, which counts from 1.
fn step(alloc: Global, case: &Case) -> Result<Step, Fail> {
    let numbers = case.numbers(alloc, "step")?;
    let [rule, row] = numbers.as_slice() else {
        return Err(Fail::new("a step is a rule and a row"));
    };
    match (
        u16::try_from(rule.saturating_sub(1)),
        u32::try_from(row.saturating_sub(1)),
    ) {
        (Ok(rule), Ok(row)) => Ok(Step { rule, row }),
        _ => Err(Fail::new("a step has a number that is too great")),
    }
}
