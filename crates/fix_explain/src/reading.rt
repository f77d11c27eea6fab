//! Which attributes the rules of steps read.
ghost use Rattle.std.specs.Prelude.{◌≡◌, ◌↔◌, All, Any, IfOk, IsTrue};
ghost use Rattle.fix_model.specs.Rules.{IsStepOf, rule_at};
ghost use Rattle.fix_model.specs.States.{Fits, cell_at};
ghost use Rattle.fix_model.specs.Valid.{IsValid};
ghost use Rattle.fix_explain.specs.Uses.{IsReadBy, AreUses, IsUse, Reads};

use desk_base::{List, NoMemory};
use fix_model::{Book, Cell, Rule, State, Step};
use std::alloc::Global;

/// The confirmed attributes that are keys or conditions of a rule of these steps, in their order. The one refusal is
/// want of memory for the list.
pub fn uses<L, B: Book<L>>(
    alloc: Global,
    book: &B,
    state: &State,
    steps: &[Step],
) -> Result<List<u16>, NoMemory>
    requires fits { Fits (B.kit book.now) state.now }
    requires steps { All (IsStepOf (B.kit book.now)) steps.now }
    ensures { IfOk result (AreUses (B.kit book.now) state.now steps.now) }
{
    let mut used = List::new(alloc);
    'attributes: for attribute in 0..book.width() {
        if is_use::<L, B>(book, state, steps, attribute) {
            used.push(attribute)?;
        }
    }
    Ok(used)
}

fn is_use<L, B: Book<L>>(book: &B, state: &State, steps: &[Step], attribute: u16) -> bool
    requires steps { All (IsStepOf (B.kit book.now)) steps.now }
    ensures { IsTrue result ↔ IsUse (B.kit book.now) state.now steps.now attribute }
{
    is_confirmed(state, attribute) && is_read_by::<L, B>(book, steps, attribute)
}

fn is_confirmed(state: &State, attribute: u16) -> bool
    ensures { IsTrue result ↔ (cell_at state.now attribute ≡ Cell.Confirmed) }
{
    match state.cells.as_slice().get(usize::from(attribute)) {
        Some(Cell::Confirmed) => true,
        Some(Cell::Uncovered | Cell::Fixed(_)) | None => false,
    }
}

/// Whether one of these steps reads the attribute.
pub(crate) fn is_read_by<L, B: Book<L>>(book: &B, steps: &[Step], attribute: u16) -> bool
    requires steps { All (IsStepOf (B.kit book.now)) steps.now }
    ensures { IsTrue result ↔ IsReadBy (B.kit book.now) steps.now attribute }
{
    'steps: for step in steps {
        if reads(rule_of::<L, B>(book, *step), attribute) {
            return true;
        }
    }
    false
}

/// The rule of a step.
pub(crate) fn rule_of<L, B: Book<L>>(book: &B, step: Step) -> &Rule
    requires { IsStepOf (B.kit book.now) step }
    ensures rule { result.now ≡ rule_at (B.kit book.now) step.rule }
    ensures valid { IsValid (B.kit book.now) }
{
    &book.rules()[usize::from(step.rule)]
}

/// Whether the attribute is a key or a condition of the rule.
fn reads(rule: &Rule, attribute: u16) -> bool
    ensures { IsTrue result ↔ Reads rule.now attribute }
{
    has_key(rule, attribute) || has_condition(rule, attribute)
}

fn has_key(rule: &Rule, attribute: u16) -> bool
    ensures { IsTrue result ↔ Any (λ key. key.0 ≡ attribute) rule.now.keys }
{
    rule.keys.as_slice().iter().any(|key| key.0 == attribute)
}

fn has_condition(rule: &Rule, attribute: u16) -> bool
    ensures { IsTrue result ↔ Any (λ cond. cond.0 ≡ attribute) rule.now.conds }
{
    rule.conds.as_slice().iter().any(|cond| cond.0 == attribute)
}
