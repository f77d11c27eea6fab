//! What holds of sentences, whatever stands in the texts that they tell of: they are printable ASCII.
ghost use Rattle.std.specs.Prelude.{ℕ, List, IfSome};
ghost use Rattle.fault_sentences.specs.Bindings.{bind_sentence, index_sentence};
ghost use Rattle.fault_sentences.specs.Notes.{absent_note, column_note, rules_told, schema_notes, sheet_notes};
ghost use Rattle.fault_sentences.specs.Printable.{ArePrintable, IsPrintable};
ghost use Rattle.fault_sentences.specs.Proposals.{key_form_sentence, no_json_sentence, no_key_sentence};
ghost use Rattle.fault_sentences.specs.Proposals.{no_object_sentence, other_key_sentence};
ghost use Rattle.fault_sentences.specs.Published.{absent_sentence, bad_name_sentence, cells_sentence, folded_sentence};
ghost use Rattle.fault_sentences.specs.Published.{full_sentence, masters_sentence, twice_sentence};
ghost use Rattle.fault_sentences.specs.Rules.{rules_sentence};
ghost use Rattle.fault_sentences.specs.Schemas.{IsSchemaSentence, plain_schema_sentence};
ghost use Rattle.fault_sentences.specs.Sheets.{sheet_sentence};

use crate::bindings::Over;
use crate::published::Published;
use desk_base::Text;
use master_rows::{Master, SheetFault};
use rule_text::{BindFault, RuleFault, RuleLine, Rulebook};
use schema_core::{Schema, SchemaFault};

/// A sentence on a text of rules is printable ASCII.
pub fn a_sentence_on_rules_is_printable(fault: RuleFault, schema: &Schema, text: &[u8])
    ensures { IsPrintable (rules_sentence fault schema.now text.now) }
{}

/// A sentence on a sheet is printable ASCII.
pub fn a_sentence_on_a_sheet_is_printable(fault: SheetFault, most: u32, sheet: &[u8])
    ensures { IsPrintable (sheet_sentence fault most sheet.now) }
{}

/// A sentence on a schema is printable ASCII.
pub fn a_sentence_on_a_schema_is_printable(fault: SchemaFault, text: &[u8], sentence: &[u8])
    requires { IsSchemaSentence fault text.now sentence.now }
    ensures { IsPrintable sentence.now }
{}

/// And so is that without a place.
pub fn a_plain_sentence_on_a_schema_is_printable(fault: SchemaFault, text: &[u8])
    ensures { IsPrintable (plain_schema_sentence fault text.now) }
{}

/// A sentence on rules that do not bind to masters is printable ASCII, and so is that on an index.
pub fn a_sentence_on_a_binding_is_printable(
    fault: BindFault,
    over: Over,
    rulebook: &Rulebook,
    masters: &[(Text, Master)],
    entries: u64,
)
    ensures binding { IsPrintable (bind_sentence fault over rulebook.now masters.now) }
    ensures index { IsPrintable (index_sentence entries) }
{}

/// The sentences on what is published are printable ASCII, that on a list where the list's own name is.
pub fn a_sentence_on_publishing_is_printable(
    what: Published,
    name: &str,
    list: &str,
    schema: &Schema,
    version: u32,
    newest: u32,
    count: u64,
)
    ensures name { IsPrintable (bad_name_sentence name.now) }
    ensures absent { IsPrintable (absent_sentence what name.now version newest) }
    ensures folded { IsPrintable (folded_sentence name.now schema.now) }
    ensures twice { IsPrintable list.now → IsPrintable (twice_sentence list.now name.now) }
    ensures masters { IsPrintable (masters_sentence count) }
    ensures full { IsPrintable (full_sentence what count) }
    ensures cells { IsPrintable cells_sentence }
{}

/// The sentences on the body that proposes an edition are printable ASCII.
pub fn a_sentence_on_a_proposal_is_printable(key: &str)
    ensures no_json { IsPrintable no_json_sentence }
    ensures no_object { IsPrintable no_object_sentence }
    ensures no_key { IsPrintable (no_key_sentence key.now) }
    ensures key_form { IsPrintable (key_form_sentence key.now) }
    ensures other_key { IsPrintable (other_key_sentence key.now) }
{}

/// The notes on what is taken are printable ASCII: those on a schema, on a sheet and on a rule, and that on all rules
/// where those on each are.
pub fn notes_are_printable(
    schema: &Schema,
    master: &Master,
    line: &RuleLine,
    version: u32,
    sheet: &[u8],
)
    ensures schema { ArePrintable (schema_notes schema.now) }
    ensures sheet { ArePrintable (sheet_notes master.now) }
    ensures absent { IsPrintable (absent_note line.now) }
    ensures column { IfSome (column_note line.now version sheet.now) IsPrintable }
    ensures rules { (sentences : List (List ℕ)) → ArePrintable sentences → ArePrintable (rules_told sentences) }
{}
