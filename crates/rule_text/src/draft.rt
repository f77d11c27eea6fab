//! A rulebook while it is read, token by token.
ghost use Rattle.std.specs.Prelude.{◌≡◌, ◌≢◌, ◌++◌, ◌∷◌, [], false, position, true, None, Some};
ghost use Rattle.std.specs.Prelude.{Ok, Err, OnOk, OnErr, IfOk, IfErr};
ghost use Rattle.std.specs.Str.{bytes_eq};
ghost use Rattle.schema_core.specs.Schemas.{IsSchema};
ghost use Rattle.rule_text.specs.Reading.{content, attribute_of, is_long, blank_line, draft_following, has_name};
ghost use Rattle.rule_text.specs.Reading.{has_attribute, with_name, with_master, with_key, with_key_column};
ghost use Rattle.rule_text.specs.Reading.{with_head, with_head_column, with_asked, with_cond, with_test};
ghost use Rattle.rule_text.specs.Reading.{with_constant, with_negated, with_text, with_set, with_line, with_token};

use crate::fault::RuleFault;
use crate::grammar::{Expected, Taken};
use crate::patterns::{constant_of, set_of};
use crate::place::Place;
use crate::rulebook::RuleLine;
use crate::token::{Mark, Token};
use desk_base::{List, MAX_CONDITIONS, MAX_KEYS, MAX_SET, MAX_TEXT, NoMemory, Text};
use fix_model::Pat;
use schema_core::Schema;
use std::alloc::Global;

/// What is read of a rulebook so far.
#[derive(Debug, Drop)]
pub struct Draft {
    /// The rules that are closed.
    pub lines: List<RuleLine>,
    /// The rule that is open, as far as it is read.
    pub line: RuleLine,
    /// The attribute of the key or the condition that is open.
    pub attribute: u16,
    /// Whether the set that is open is one of excluded texts.
    pub negated: bool,
    /// The texts of this set.
    pub texts: List<Text>,
}

impl Token {
    /// The bytes of a word, or the content of a string.
    fn content(&self) -> &[u8]
        ensures { result.now ≡ content self.now }
    {
        match self {
            Token::Word(bytes) | Token::Quoted(bytes) => bytes.as_slice(),
            Token::Sign(_) => &[],
        }
    }
}

/// A text that is not too long.
fn text_of(alloc: Global, bytes: &[u8]) -> Result<Text, RuleFault>
    ensures text { IfOk result (λ text. text ≡ bytes.now) }
    ensures fault { IfErr result (λ fault. fault ≡ RuleFault.NoMemory) }
{
    match Text::new(alloc, bytes) {
        Ok(text) => Ok(text),
        Err(_) => Err(RuleFault::NoMemory),
    }
}

fn is_long(bytes: &[u8]) -> bool
    ensures { result ≡ is_long bytes.now }
{
    bytes.len() > MAX_TEXT
}

/// The text of a column or a constant at this place, where it is not too long for one.
fn short_text(alloc: Global, bytes: &[u8], place: Place) -> Result<Text, RuleFault>
    ensures text { IfOk result (λ text. text ≡ bytes.now) }
    ensures short { OnOk result (is_long bytes.now ≡ false) }
    ensures long { IfErr result (λ fault. fault ≢ RuleFault.NoMemory → is_long bytes.now ≡ true) }
    ensures fault { IfErr result (λ fault. fault ≢ RuleFault.NoMemory
        → fault ≡ RuleFault.ConstantLong place.line place.column) }
{
    if is_long(bytes) {
        return Err(RuleFault::ConstantLong(place.line, place.column));
    }
    text_of(alloc, bytes)
}

/// The number of an attribute in the schema, from 0.
fn attribute_of(schema: &Schema, word: &[u8]) -> Option<u16>
    requires { IsSchema schema.now }
    ensures { result ≡ attribute_of schema.now word.now }
{
    match place_of(schema.attributes.as_slice(), word) {
        Some(place) => Some(place as u16),
        None => None,
    }
}

/// The same of a word at this place, which is to be an attribute.
fn known_attribute(schema: &Schema, word: &[u8], place: Place) -> Result<u16, RuleFault>
    requires { IsSchema schema.now }
    ensures known { IfOk result (λ attribute. attribute_of schema.now word.now ≡ Some attribute) }
    ensures unknown { OnErr result (attribute_of schema.now word.now ≡ None) }
    ensures fault { IfErr result (λ fault. fault ≡ RuleFault.UnknownAttr place.line place.column) }
{
    match attribute_of(schema, word) {
        Some(attribute) => Ok(attribute),
        None => Err(RuleFault::UnknownAttr(place.line, place.column)),
    }
}

fn place_of(words: &[Text], word: &[u8]) -> Option<usize>
    ensures { result ≡ position (bytes_eq word.now) words.now }
{
    words.iter().position(|one| word == one.as_str().as_bytes())
}

fn has_name(lines: &[RuleLine], name: &[u8]) -> bool
    ensures { result ≡ has_name lines.now name.now }
{
    lines
        .iter()
        .any(|line| name == line.name.as_str().as_bytes())
}

fn has_key(keys: &[(u16, Text)], attribute: u16) -> bool
    ensures { result ≡ has_attribute keys.now attribute }
{
    keys.iter().any(|key| attribute == key.0)
}

fn has_cond(conds: &[(u16, Pat)], attribute: u16) -> bool
    ensures { result ≡ has_attribute conds.now attribute }
{
    conds.iter().any(|cond| attribute == cond.0)
}

/// A rule of which nothing is read yet.
fn blank_line(alloc: Global) -> Result<RuleLine, RuleFault>
    ensures line { IfOk result (λ line. line ≡ blank_line) }
    ensures fault { IfErr result (λ fault. fault ≡ RuleFault.NoMemory) }
{
    Ok(RuleLine {
        name: text_of(alloc, b"")?,
        master: text_of(alloc, b"")?,
        keys: List::new(alloc),
        head: 0,
        from: text_of(alloc, b"")?,
        conds: List::new(alloc),
    })
}

impl Draft {
    /// The draft of which nothing is read yet.
    pub fn new(alloc: Global) -> Result<Draft, RuleFault>
        ensures draft { IfOk result (λ draft. draft ≡ draft_following []) }
        ensures fault { IfErr result (λ fault. fault ≡ RuleFault.NoMemory) }
    {
        Ok(Draft {
            lines: List::new(alloc),
            line: blank_line(alloc)?,
            attribute: 0,
            negated: false,
            texts: List::new(alloc),
        })
    }

    /// Takes the name of the rule.
    fn take_name(&mut self, alloc: Global, name: &[u8], place: Place) -> Result<(), RuleFault>
        ensures read { OnOk result (with_name name.now place self.old ≡ Ok self.new) }
        ensures fault { IfErr result (λ fault. fault ≢ RuleFault.NoMemory
            → with_name name.now place self.old ≡ Err fault) }
    {
        if has_name(self.lines.as_slice(), name) {
            return Err(RuleFault::NameTwice(place.line, place.column));
        }
        self.line.name = text_of(alloc, name)?;
        Ok(())
    }

    /// Takes the name of its master.
    fn take_master(&mut self, alloc: Global, master: &[u8]) -> Result<(), RuleFault>
        ensures read { OnOk result (self.new ≡ with_master master.now self.old) }
        ensures fault { IfErr result (λ fault. fault ≡ RuleFault.NoMemory) }
    {
        self.line.master = text_of(alloc, master)?;
        Ok(())
    }

    /// Takes the attribute of a key.
    fn take_key(&mut self, schema: &Schema, word: &[u8], place: Place) -> Result<(), RuleFault>
        requires { IsSchema schema.now }
        ensures read { OnOk result (with_key schema.now word.now place self.old ≡ Ok self.new) }
        ensures fault { IfErr result (λ fault. fault ≢ RuleFault.NoMemory
            → with_key schema.now word.now place self.old ≡ Err fault) }
    {
        if self.line.keys.len() >= MAX_KEYS {
            return Err(RuleFault::TooMany(place.line, place.column));
        }
        let attribute = known_attribute(schema, word, place)?;
        if has_key(self.line.keys.as_slice(), attribute) {
            return Err(RuleFault::AttrTwice(place.line, place.column));
        }
        self.attribute = attribute;
        Ok(())
    }

    /// Takes the column of a key.
    fn take_key_column(
        &mut self,
        alloc: Global,
        column: &[u8],
        place: Place,
    ) -> Result<(), RuleFault>
        ensures read { OnOk result (with_key_column column.now place self.old ≡ Ok self.new) }
        ensures fault { IfErr result (λ fault. fault ≢ RuleFault.NoMemory
            → with_key_column column.now place self.old ≡ Err fault) }
    {
        let column = short_text(alloc, column, place)?;
        self.line.keys.push((self.attribute, column))?;
        Ok(())
    }

    /// Takes the head.
    fn take_head(&mut self, schema: &Schema, word: &[u8], place: Place) -> Result<(), RuleFault>
        requires { IsSchema schema.now }
        ensures read { OnOk result (with_head schema.now word.now place self.old ≡ Ok self.new) }
        ensures fault { IfErr result (λ fault. fault ≢ RuleFault.NoMemory
            → with_head schema.now word.now place self.old ≡ Err fault) }
    {
        let attribute = known_attribute(schema, word, place)?;
        if has_key(self.line.keys.as_slice(), attribute) {
            return Err(RuleFault::HeadInKeys(place.line, place.column));
        }
        self.line.head = attribute;
        Ok(())
    }

    /// Takes the column of the head.
    fn take_head_column(
        &mut self,
        alloc: Global,
        column: &[u8],
        place: Place,
    ) -> Result<(), RuleFault>
        ensures read { OnOk result (with_head_column column.now place self.old ≡ Ok self.new) }
        ensures fault { IfErr result (λ fault. fault ≢ RuleFault.NoMemory
            → with_head_column column.now place self.old ≡ Err fault) }
    {
        self.line.from = short_text(alloc, column, place)?;
        Ok(())
    }

    /// Takes the attribute of a condition.
    fn take_asked(&mut self, schema: &Schema, word: &[u8], place: Place) -> Result<(), RuleFault>
        requires { IsSchema schema.now }
        ensures read { OnOk result (with_asked schema.now word.now place self.old ≡ Ok self.new) }
        ensures fault { IfErr result (λ fault. fault ≢ RuleFault.NoMemory
            → with_asked schema.now word.now place self.old ≡ Err fault) }
    {
        if self.line.conds.len() >= MAX_CONDITIONS {
            return Err(RuleFault::TooMany(place.line, place.column));
        }
        let attribute = known_attribute(schema, word, place)?;
        if has_cond(self.line.conds.as_slice(), attribute) {
            return Err(RuleFault::AttrTwice(place.line, place.column));
        }
        if attribute == self.line.head {
            return Err(RuleFault::HeadInWhen(place.line, place.column));
        }
        self.attribute = attribute;
        Ok(())
    }

    /// Adds a condition that asks this of its attribute.
    fn add_cond(&mut self, pat: Pat) -> Result<(), RuleFault>
        ensures read { OnOk result (self.new ≡ with_cond pat self.old) }
        ensures fault { IfErr result (λ fault. fault ≡ RuleFault.NoMemory) }
    {
        self.line.conds.push((self.attribute, pat))?;
        Ok(())
    }

    /// Takes what a condition asks.
    fn take_test(&mut self, token: &Token) -> Result<(), RuleFault>
        ensures read { OnOk result (self.new ≡ with_test token.now self.old) }
        ensures fault { IfErr result (λ fault. fault ≡ RuleFault.NoMemory) }
    {
        if token.is_keyword(b"any") {
            return self.add_cond(Pat::Any);
        }
        self.negated = false;
        Ok(())
    }

    /// Takes the constant that a text is to be, or is not to be.
    fn take_constant(
        &mut self,
        alloc: Global,
        negated: bool,
        constant: &[u8],
        place: Place,
    ) -> Result<(), RuleFault>
        ensures read { OnOk result (with_constant negated constant.now place self.old ≡ Ok self.new) }
        ensures fault { IfErr result (λ fault. fault ≢ RuleFault.NoMemory
            → with_constant negated constant.now place self.old ≡ Err fault) }
    {
        let constant = short_text(alloc, constant, place)?;
        self.add_cond(constant_of(negated, constant))
    }

    /// Takes what stands after `not`: the constant that a text is not to be, or `in`.
    fn take_negated(&mut self, alloc: Global, token: &Token, place: Place) -> Result<(), RuleFault>
        ensures read { OnOk result (with_negated token.now place self.old ≡ Ok self.new) }
        ensures fault { IfErr result (λ fault. fault ≢ RuleFault.NoMemory
            → with_negated token.now place self.old ≡ Err fault) }
    {
        if token.is_quoted() {
            return self.take_constant(alloc, true, token.content(), place);
        }
        self.negated = true;
        Ok(())
    }

    /// Takes a text of a set.
    fn take_text(&mut self, alloc: Global, text: &[u8], place: Place) -> Result<(), RuleFault>
        ensures read { OnOk result (with_text text.now place self.old ≡ Ok self.new) }
        ensures fault { IfErr result (λ fault. fault ≢ RuleFault.NoMemory
            → with_text text.now place self.old ≡ Err fault) }
    {
        if self.texts.len() >= MAX_SET {
            return Err(RuleFault::TooMany(place.line, place.column));
        }
        let text = short_text(alloc, text, place)?;
        self.texts.push(text)?;
        Ok(())
    }

    /// Takes what stands after a text of a set: the set may be closed.
    fn take_after_text(&mut self, alloc: Global, token: &Token) -> Result<(), RuleFault>
        ensures read { OnOk result (self.new ≡ with_set token.now self.old) }
        ensures fault { IfErr result (λ fault. fault ≡ RuleFault.NoMemory) }
    {
        if !token.is_sign(Mark::Closing) {
            return Ok(());
        }
        let texts = std::mem::replace(&mut self.texts, List::new(alloc));
        self.add_cond(set_of(self.negated, texts))
    }

    /// Takes what stands after the head or a condition: the rule may be closed.
    fn take_after_line(&mut self, alloc: Global, token: &Token) -> Result<(), RuleFault>
        ensures read { OnOk result (self.new ≡ with_line token.now self.old) }
        ensures fault { IfErr result (λ fault. fault ≡ RuleFault.NoMemory) }
    {
        if !token.is_sign(Mark::Semicolon) {
            return Ok(());
        }
        let next = Draft::new(alloc)?;
        let draft = std::mem::replace(self, next);
        self.lines = draft.lines;
        self.lines.push(draft.line)?;
        Ok(())
    }

    /// Takes a token by what was expected there. After a refusal the draft is of no use.
    #[tactic(auto, unfolding(crate::specs::Reading::with_token))]
    pub fn take(&mut self, alloc: Global, schema: &Schema, taken: &Taken) -> Result<(), RuleFault>
        requires { IsSchema schema.now }
        ensures read { OnOk result (with_token schema.now taken.now.expected taken.now.token taken.now.place self.old
            ≡ Ok self.new) }
        ensures fault { IfErr result (λ fault. fault ≢ RuleFault.NoMemory
            → with_token schema.now taken.now.expected taken.now.token taken.now.place self.old
            ≡ Err fault) }
    {
        let token = &taken.token;
        let place = taken.place;
        match taken.expected {
            Expected::Name => self.take_name(alloc, token.content(), place),
            Expected::Master => self.take_master(alloc, token.content()),
            Expected::Key => self.take_key(schema, token.content(), place),
            Expected::KeyColumn => self.take_key_column(alloc, token.content(), place),
            Expected::Head => self.take_head(schema, token.content(), place),
            Expected::HeadColumn => self.take_head_column(alloc, token.content(), place),
            Expected::Cond => self.take_asked(schema, token.content(), place),
            Expected::Test => self.take_test(token),
            Expected::Negated => self.take_negated(alloc, token, place),
            Expected::Item => self.take_text(alloc, token.content(), place),
            Expected::AfterItem => self.take_after_text(alloc, token),
            Expected::Const => self.take_constant(alloc, false, token.content(), place),
            Expected::AfterHead | Expected::AfterCond => self.take_after_line(alloc, token),
            Expected::Rule
            | Expected::From
            | Expected::Colon
            | Expected::KeyEquals
            | Expected::AfterKey
            | Expected::HeadEquals
            | Expected::Open => Ok(()),
        }
    }
}
