//! Names, one after the other.
ghost use Rattle.std.specs.Prelude.{◌≡◌, ◌++◌, IfOk, OnOk, flat_map};
ghost use Rattle.fault_sentences.specs.Equals.{equals_earlier, numbered};
ghost use Rattle.fault_sentences.specs.Rules.{schema_told};
ghost use Rattle.fault_sentences.specs.Lists.{and_more, after_comma, listed, with_commas};

use crate::records::copy_of;
use crate::sentence::Sentence;
use desk_base::{List, NoMemory, Text};
use schema_core::Schema;
use std::alloc::Global;

/// How many names are listed at most.
pub const MOST_LISTED: usize = 8;

impl Sentence {
    /// Adds the first 8 of some names, and how many more there are.
    pub(crate) fn listed(&mut self, names: &[Text]) -> Result<(), NoMemory>
        ensures { OnOk result (self.new ≡ self.old ++ listed names.now) }
    {
        let names = bytes_of(self.allocator(), names)?;
        self.listed_fields(names.as_slice())
    }

    /// Adds the first 8 of some names, which may be any bytes, and how many more there are.
    #[tactic(auto, unfolding(crate::specs::Lists::listed))]
    pub(crate) fn listed_fields(&mut self, names: &[List<u8>]) -> Result<(), NoMemory>
        ensures { OnOk result (self.new ≡ self.old ++ listed names.now) }
    {
        self.with_commas(&names[..names.len().min(MOST_LISTED)])?;
        self.and_more(names.len())
    }

    /// Adds the name of a schema, and its attributes.
    #[tactic(auto, unfolding(crate::specs::Rules::schema_told))]
    pub(crate) fn schema(&mut self, schema: &Schema) -> Result<(), NoMemory>
        ensures { OnOk result (self.new ≡ self.old ++ schema_told schema.now) }
    {
        self.shown(schema.name.as_str().as_bytes())?;
        self.words(" (")?;
        self.listed(schema.attributes.as_slice())?;
        self.words(")")
    }

    /// Adds what has a number, and what stands there.
    #[tactic(auto, unfolding(crate::specs::Equals::numbered))]
    pub(crate) fn numbered(&mut self, what: &str, number: u64, text: &[u8]) -> Result<(), NoMemory>
        ensures { OnOk result (self.new ≡ self.old ++ numbered what.now number text.now) }
    {
        self.words(what)?;
        self.number(number)?;
        self.words(", ")?;
        self.shown(text)
    }

    /// Adds that it equals the one that has another number.
    #[tactic(auto, unfolding(crate::specs::Equals::equals_earlier))]
    pub(crate) fn equals_earlier(
        &mut self,
        what: &str,
        number: u64,
        text: &[u8],
        earlier: u64,
    ) -> Result<(), NoMemory>
        ensures { OnOk result (self.new ≡ self.old ++ equals_earlier what.now number text.now earlier) }
    {
        self.numbered(what, number, text)?;
        self.words(", equals ")?;
        self.words(what)?;
        self.number(earlier)
    }

    fn with_commas(&mut self, names: &[List<u8>]) -> Result<(), NoMemory>
        ensures { OnOk result (self.new ≡ self.old ++ with_commas names.now) }
    {
        let [first, rest @ ..] = names else {
            return Ok(());
        };
        self.shown(first.as_slice())?;
        self.after_commas(rest)
    }

    fn after_commas(&mut self, names: &[List<u8>]) -> Result<(), NoMemory>
        ensures { OnOk result (self.new ≡ self.old ++ flat_map after_comma names.now) }
    {
        'names: for name in names {
            self.words(", ")?;
            self.shown(name.as_slice())?;
        }
        Ok(())
    }

    fn and_more(&mut self, count: usize) -> Result<(), NoMemory>
        ensures { OnOk result (self.new ≡ self.old ++ and_more count) }
    {
        if count > MOST_LISTED {
            self.words(" and ")?;
            self.number((count - MOST_LISTED) as u64)?;
            self.words(" more")?;
        }
        Ok(())
    }
}

/// The bytes of names.
fn bytes_of(alloc: Global, names: &[Text]) -> Result<List<List<u8>>, NoMemory>
    ensures { IfOk result (λ copies. copies ≡ names.now) }
{
    let mut copies = List::new(alloc);
    'names: for name in names {
        copies.push(copy_of(alloc, name.as_str().as_bytes())?)?;
    }
    Ok(copies)
}
