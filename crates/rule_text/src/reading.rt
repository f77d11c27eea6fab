//! From bytes to a rulebook.
ghost use Rattle.std.specs.Prelude.{◌≡◌, ◌≢◌, [], Ok, Err, option_map, IfOk, IfErr};
ghost use Rattle.schema_core.specs.Schemas.{IsSchema};
ghost use Rattle.rule_text.specs.Rulebooks.{IsRulebook};
ghost use Rattle.rule_text.specs.Reading.{read_rules, begins_rule, extra_rule, draft_following, with_tokens};

use crate::draft::Draft;
use crate::fault::RuleFault;
use crate::grammar::{Expected, Taken};
use crate::place::Place;
use crate::rulebook::Rulebook;
use crate::tokenizer::tokens_of;
use desk_base::MAX_RULES;
use schema_core::Schema;
use std::alloc::Global;

/// Reads a rulebook over a schema. Otherwise it names the first test that the text fails, with the line
/// and the column.
#[tactic(auto, unfolding(crate::specs::Reading::read_rules))]
pub fn read(alloc: Global, text: &[u8], schema: &Schema) -> Result<Rulebook, RuleFault>
    requires { IsSchema schema.now }
    ensures rulebook { IfOk result (λ rulebook. read_rules text.now schema.now ≡ Ok rulebook) }
    ensures sound { IfOk result (IsRulebook schema.now) }

    // Each refusal but want of memory, exactly where it comes.
    ensures fault { IfErr result (λ fault. fault ≢ RuleFault.NoMemory
        → read_rules text.now schema.now ≡ Err fault) }
{
    let tokens = tokens_of(alloc, text)?;
    if let Some(place) = extra_rule(&tokens) {
        return Err(RuleFault::TooMany(place.line, place.column));
    }
    let draft = draft_of(alloc, schema, &tokens)?;
    Ok(Rulebook { lines: draft.lines })
}

/// Where more than 200 rules begin, the place of the next.
fn extra_rule(tokens: &[Taken]) -> Option<Place>
    ensures { result ≡ option_map (λ token. token.place) (extra_rule tokens.now) }
{
    let mut more = MAX_RULES;
    'tokens: for token in tokens {
        if begins_rule(token) {
            if more == 0 {
                return Some(token.place);
            }
            more -= 1;
        }
    }
    None
}

fn begins_rule(token: &Taken) -> bool
    ensures { result ≡ begins_rule token.now }
{
    matches!(token.expected, Expected::Rule)
}

/// What the tokens add, one after the other.
fn draft_of(alloc: Global, schema: &Schema, tokens: &[Taken]) -> Result<Draft, RuleFault>
    requires { IsSchema schema.now }
    ensures draft { IfOk result (λ draft.
        with_tokens schema.now tokens.now (draft_following []) ≡ Ok draft) }
    ensures fault { IfErr result (λ fault. fault ≢ RuleFault.NoMemory
        → with_tokens schema.now tokens.now (draft_following []) ≡ Err fault) }
{
    let mut draft = Draft::new(alloc)?;
    'tokens: for token in tokens {
        draft.take(alloc, schema, token)?;
    }
    Ok(draft)
}
