//! What the least step that dissents would have copied.
ghost use Rattle.std.specs.Prelude.{◌≡◌, IfOk};
ghost use Rattle.fix_model.specs.Rules.{IsStepOf};
ghost use Rattle.fix_model.specs.States.{Fits};
ghost use Rattle.fix_engine.specs.Verdicts.{IsAnswer};
ghost use Rattle.fix_choices.specs.Dissents.{dissent_at, dissent_of};

use crate::choosing::end_of;
use crate::dissents::Dissent;
use desk_base::{NoMemory, Text};
use fix_engine::Verdict;
use fix_model::{Book, State, Step, value_text};

/// The dissent of an answer with this first run: at a fix from which a step dissents, what the record has and what the
/// least such step would have copied; else none. The one refusal is want of memory for the texts.
pub fn dissent<L, B: Book<L>>(
    book: &B,
    state: &State,
    first: &[Step],
    second: &[Step],
    verdict: Verdict,
) -> Result<Option<Dissent>, NoMemory>
    requires fits { Fits (B.kit book.now) state.now }
    requires answer { IsAnswer (B.kit book.now) state.now first.now second.now verdict }
    ensures { IfOk result (λ dissent. dissent ≡ dissent_of (B.kit book.now) state.now first.now verdict) }
{
    let Verdict::Fix {
        dissent: Some(step),
        ..
    } = verdict
    else {
        return Ok(None);
    };
    let end = end_of::<L, B>(book, state, first)?;
    Ok(Some(dissent_at::<L, B>(book, &end, step)?))
}

/// What an end has at the head of a step's rule, and what the step would have copied.
fn dissent_at<L, B: Book<L>>(book: &B, end: &State, step: Step) -> Result<Dissent, NoMemory>
    requires fits { Fits (B.kit book.now) end.now }
    requires step_of { IsStepOf (B.kit book.now) step }
    ensures { IfOk result (λ dissent. dissent ≡ dissent_at (B.kit book.now) end.now step) }
{
    let attribute = book.rules()[usize::from(step.rule)].head;
    Ok(Dissent {
        attribute,
        text: value_text::<L, B>(book, end, attribute)?,
        step,
        other: Text::of(end.typed.allocator(), book.text(step))?,
    })
}
