//! What holds of the definitions, for callers that reason with them. What a text reads as is a function of
//! the text and the schema, so each text has exactly one result.
ghost use Rattle.std.specs.Prelude.{◌≡◌, ◌≢◌, ◌↔◌, List, Ok, Err};
ghost use Rattle.schema_core.specs.Schemas.{IsSchema};
ghost use Rattle.rule_text.specs.declared.grammar.Taken.{Taken as TakenOf};
ghost use Rattle.rule_text.specs.declared.token.Token.{Token as TokenOf};
ghost use Rattle.rule_text.specs.BookTokens.{IsTextOf};
ghost use Rattle.rule_text.specs.Tokenizer.{tokens_of};
ghost use Rattle.rule_text.specs.Sentences.{Spells, IsSentence, tokens_alone};
ghost use Rattle.rule_text.specs.Rulebooks.{IsRulebook};
ghost use Rattle.rule_text.specs.Reading.{read_rules};
ghost use Rattle.rule_text.specs.Printing.{printed};

use crate::fault::RuleFault;
use crate::rulebook::Rulebook;
use schema_core::Schema;

/// What is read of a text are tokens that it spells, and they are a sentence of the grammar.
pub fn only_sentences(text: &[u8])
    ensures { (taken : List TakenOf) → tokens_of text.now ≡ Ok taken
        → Spells text.now (tokens_alone taken) × IsSentence (tokens_alone taken) }
{}

/// Where a text spells a sentence of the grammar, this is what is read of it. So a text is refused as no
/// sentence only where it spells none.
pub fn every_sentence(text: &[u8])
    ensures { (tokens : List TokenOf) → Spells text.now tokens → IsSentence tokens
        → (taken : List TakenOf) × (tokens_of text.now ≡ Ok taken) × (tokens_alone taken ≡ tokens) }
{}

/// A text spells at most one sequence of tokens.
pub fn one_spelling(text: &[u8])
    ensures { (tokens others : List TokenOf) → Spells text.now tokens → Spells text.now others
        → tokens ≡ others }
{}

/// A text reads as nothing but rulebooks.
pub fn only_rulebooks(text: &[u8], schema: &Schema, rulebook: &Rulebook)
    requires { read_rules text.now schema.now ≡ Ok rulebook.now }
    ensures { IsRulebook schema.now rulebook.now }
{}

/// A text reads as a rulebook exactly where that is a rulebook over the schema and the tokens of the text are
/// the rulebook's, each column taken as a string however it is written.
pub fn read_by_its_tokens(text: &[u8], schema: &Schema, rulebook: &Rulebook)
    requires { IsSchema schema.now }
    ensures { (read_rules text.now schema.now ≡ Ok rulebook.now)
        ↔ (IsRulebook schema.now rulebook.now × IsTextOf schema.now rulebook.now text.now) }
{}

/// Every rulebook is read from a text: from the one that it is printed as.
pub fn every_rulebook(schema: &Schema, rulebook: &Rulebook)
    requires schema { IsSchema schema.now }
    requires rulebook { IsRulebook schema.now rulebook.now }
    ensures { read_rules (printed rulebook.now schema.now) schema.now ≡ Ok rulebook.now }
{}

/// Want of memory is no fault of a text.
pub fn memory_is_no_fault(text: &[u8], schema: &Schema)
    ensures { read_rules text.now schema.now ≢ Err RuleFault.NoMemory }
{}
