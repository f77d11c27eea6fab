//! The part that keeps a value from being a case.
ghost use Rattle.std.specs.Prelude.{◌≡◌, ◌++◌, ◌<◌, [], codes, decimal, is_none, length, map, option_and_then};
ghost use Rattle.std.specs.Prelude.{option_map, true, false, IfOk, IfSome, MatchResult, OnOk};
ghost use Rattle.serde_json.specs.Find.{get};
ghost use Rattle.serde_json.specs.View.{view};
ghost use Rattle.json_parts.specs.Parts.{field, items_in};
ghost use Rattle.case_json.specs.Masters.{table_in};
ghost use Rattle.case_json.specs.Pointers.{first_unread, into_array, into_case, into_item, into_key, into_named};
ghost use Rattle.case_json.specs.Pointers.{into_parts, into_record, into_rule, into_table, of_whole, pointer_in};
ghost use Rattle.case_json.specs.Pointers.{pointer_of, to_item, token, twice_after};
ghost use Rattle.case_json.specs.Rules.{rule_in};

use crate::attributes::{Attributes, Word};
use crate::kits::folded;
use crate::masters::{Row, array, columns_of};
use crate::read::has_case_keys;
use crate::records::{confirmed, typed};
use crate::rules::{column_at, has_rule_keys, master_at};
use desk_base::{Grid, List, MAX_MASTERS, MAX_ROWS, NoMemory, Text, has_text};
use fix_model::{Pat, Rule};
use json_parts::{Part, PartFault, json_of, read_field};
use serde_json::Value;
use std::alloc::Global;
use std::marker::Model;

/// The part that keeps the value of a JSON text from being a case, by its JSON pointer (RFC 6901): the first one, in the
/// order in which a case is read. None where the bytes are no JSON; of a case nothing is said.
pub fn pointer_of(alloc: Global, bytes: &[u8]) -> Result<Option<List<u8>>, NoMemory>
    ensures { IfOk result (λ found. found ≡ pointer_of bytes.now) }
{
    match json_of(alloc, bytes)? {
        Some(value) => Ok(Some(pointer_in(alloc, &value)?)),
        None => Ok(None),
    }
}

fn pointer_in(alloc: Global, value: &Value) -> Result<List<u8>, NoMemory>
    ensures { IfOk result (λ pointer. pointer ≡ pointer_in (view value.now)) }
{
    let mut pointer = Pointer::new(alloc);
    if has_case_keys(value) {
        pointer.into_case(value)?;
    }
    Ok(pointer.into_bytes())
}

/// A pointer that is written token by token. A clause sees its bytes.
#[derive(Drop)]
struct Pointer {
    alloc: Global,
    bytes: Vec<u8>,
}

impl Model for Pointer {
    ghost use Rattle.std.specs.Prelude.{ℕ, List};

    ghost Value = { List ℕ };

    ghost view = { λ pointer. pointer.bytes.items };
}

impl Pointer {
    /// To the value itself.
    fn new(alloc: Global) -> Pointer
        ensures { result ≡ [] }
    {
        Pointer {
            alloc,
            bytes: Vec::new(alloc),
        }
    }

    fn into_bytes(self) -> List<u8>
        ensures { result ≡ self }
    {
        List::from_vec(self.bytes)
    }

    /// Adds a token.
    fn to(&mut self, name: &str) -> Result<(), NoMemory>
        ensures { OnOk result (self.new ≡ self.old ++ token name.now) }
    {
        self.bytes.extend_from_slice(b"/")?;
        self.bytes.extend_from_slice(name.as_bytes())?;
        Ok(())
    }

    /// Adds the token of a place in an array.
    fn to_place(&mut self, place: usize) -> Result<(), NoMemory>
        ensures { OnOk result (self.new ≡ self.old ++ token (decimal place)) }
    {
        let place = place.to_string(self.alloc)?;
        self.to(place.as_str())
    }

    /// Goes on to the first item of a list of which nothing is read.
    fn to_item<C, T: Part<C> + Drop>(
        &mut self,
        context: &C,
        items: &[Value],
    ) -> Result<(), NoMemory>
        ensures { OnOk result (self.new ≡ self.old ++ to_item (T.part_in context.now) (map view items.now)) }
    {
        match first_unread::<C, T>(self.alloc, context, items)? {
            Some(place) => self.to_place(place),
            None => Ok(()),
        }
    }

    /// Goes on to the array at a key, and to its first item of which nothing is read.
    fn to_item_at<C, T: Part<C> + Drop>(
        &mut self,
        context: &C,
        key: &str,
        value: &Value,
    ) -> Result<(), NoMemory>
        ensures { OnOk result
            (self.new ≡ self.old ++ into_key key.now (into_array (to_item (T.part_in context.now))) (view value.now)) }
    {
        self.to(key)?;
        match items_at(key, value) {
            Some(items) => self.to_item::<C, T>(context, items),
            None => Ok(()),
        }
    }

    /// Goes on into an object with the keys of a case.
    fn into_case(&mut self, value: &Value) -> Result<(), NoMemory>
        ensures { OnOk result (self.new ≡ self.old ++ into_case (view value.now)) }
    {
        match read_field::<(), Attributes>(self.alloc, &(), "attributes", value) {
            Ok(attributes) => self.into_named(&attributes, value),
            Err(PartFault::WrongForm) => self.to_item_at::<(), Word>(&(), "attributes", value),
            Err(PartFault::NoMemory) => Err(NoMemory),
        }
    }

    /// Goes on to an attribute that stands twice, or into the other parts.
    fn into_named(&mut self, attributes: &Attributes, value: &Value) -> Result<(), NoMemory>
        ensures { OnOk result (self.new ≡ self.old ++ into_named attributes.now (view value.now)) }
    {
        match first_twice(attributes.words()) {
            Some(place) => {
                self.to("attributes")?;
                self.to_place(place)
            }
            None => self.into_parts(attributes, value),
        }
    }

    /// Goes on into the rules and the masters, or into what is after them.
    fn into_parts(&mut self, attributes: &Attributes, value: &Value) -> Result<(), NoMemory>
        ensures { OnOk result (self.new ≡ self.old ++ into_parts attributes.now (view value.now)) }
    {
        if is_unread_at::<Attributes, List<Rule>>(self.alloc, attributes, "rules", value)? {
            return self.into_rules(attributes, value);
        }
        if is_unread_at::<Attributes, List<Grid>>(self.alloc, attributes, "masters", value)? {
            return self.into_masters(attributes, value);
        }
        self.into_record(attributes, value)
    }

    /// Goes on into what is read after the masters.
    fn into_record(&mut self, attributes: &Attributes, value: &Value) -> Result<(), NoMemory>
        ensures { OnOk result (self.new ≡ self.old ++ into_record attributes.now (view value.now)) }
    {
        if is_unread(folded(self.alloc, attributes, value))? {
            return self.to_item_at::<Attributes, u16>(attributes, "folded", value);
        }
        if is_unread(typed(self.alloc, attributes, value))? {
            return self.to_item_at::<(), Text>(&(), "record", value);
        }
        if is_unread(confirmed(self.alloc, attributes, value))? {
            return self.to_item_at::<Attributes, u16>(attributes, "confirmed", value);
        }
        self.to(of_whole(value))
    }

    /// Goes on to the rules, and into the first of which nothing is read.
    fn into_rules(&mut self, attributes: &Attributes, value: &Value) -> Result<(), NoMemory>
        ensures { OnOk result (self.new ≡ self.old ++ into_key (codes "rules")
            (into_array (into_item (rule_in attributes.now) (into_rule attributes.now))) (view value.now)) }
    {
        self.to("rules")?;
        match items_at("rules", value) {
            Some(rules) => self.into_first_rule(attributes, rules),
            None => Ok(()),
        }
    }

    /// Goes on into the first of these rules of which nothing is read.
    fn into_first_rule(&mut self, attributes: &Attributes, rules: &[Value]) -> Result<(), NoMemory>
        ensures { OnOk result (self.new
            ≡ self.old ++ into_item (rule_in attributes.now) (into_rule attributes.now) (map view rules.now)) }
    {
        let Some(place) = first_unread::<Attributes, Rule>(self.alloc, attributes, rules)? else {
            return Ok(());
        };
        self.to_place(place)?;
        self.into_rule(attributes, &rules[place])
    }

    /// Goes on into a rule of which nothing is read.
    fn into_rule(&mut self, attributes: &Attributes, value: &Value) -> Result<(), NoMemory>
        ensures { OnOk result (self.new ≡ self.old ++ into_rule attributes.now (view value.now)) }
    {
        let alloc = self.alloc;
        if !has_rule_keys(value) {
            Ok(())
        } else if is_unread_at::<Attributes, List<(u16, u16)>>(alloc, attributes, "keys", value)? {
            self.to_item_at::<Attributes, (u16, u16)>(attributes, "keys", value)
        } else if is_unread_at::<Attributes, u16>(alloc, attributes, "head", value)? {
            self.to("head")
        } else if column_at("from", value).is_none() {
            self.to("from")
        } else if master_at("master", value).is_none() {
            self.to("master")
        } else {
            self.to_item_at::<Attributes, (u16, Pat)>(attributes, "conds", value)
        }
    }

    /// Goes on to the masters, and into the first of which nothing is read.
    fn into_masters(&mut self, attributes: &Attributes, value: &Value) -> Result<(), NoMemory>
        ensures { OnOk result (self.new ≡ self.old ++ into_key (codes "masters")
            (into_array (into_item table_in (into_array into_table))) (view value.now)) }
    {
        self.to("masters")?;
        let masters = items_at("masters", value).unwrap_or(&[]);
        let Some(place) = first_unread::<Attributes, Grid>(self.alloc, attributes, masters)? else {
            return Ok(());
        };
        self.to_place(place)?;
        match array(&masters[place]) {
            Some(rows) => self.into_table(rows),
            None => Ok(()),
        }
    }

    /// Goes on to the row of a master that keeps it from being one.
    fn into_table(&mut self, rows: &[Value]) -> Result<(), NoMemory>
        ensures { OnOk result (self.new ≡ self.old ++ into_table (map view rows.now)) }
    {
        if rows.len() > MAX_ROWS as usize {
            return Ok(());
        }
        match columns_of(rows) {
            Some(columns) => self.to_item::<u16, Row>(&columns, rows),
            None => self.to_place(0),
        }
    }
}

/// The items of the array at a key of an object.
fn items_at<'a>(key: &str, value: &'a Value) -> Option<&'a [Value]>
    ensures { option_map (λ items. map view items.now) result ≡ option_and_then items_in (get key.now (view value.now)) }
{
    match value.get(key) {
        Some(found) => array(found),
        None => None,
    }
}

/// The place of the first word that equals an earlier one.
fn first_twice(words: &[Text]) -> Option<usize>
    ensures { result ≡ twice_after [] words.now }
{
    'words: for (place, word) in words.iter().enumerate() {
        if has_text(&words[..place], word.as_str()) {
            return Some(place);
        }
    }
    None
}

/// The key that is told where all parts are read, and are no case together.
fn of_whole(value: &Value) -> &'static str
    ensures { token result.now ≡ of_whole (view value.now) }
{
    match items_at("masters", value) {
        Some(masters) if masters.len() > MAX_MASTERS => "masters",
        _ => "rules",
    }
}

/// Whether nothing is read, and there was memory to tell.
fn is_unread<T: Drop>(read: Result<T, PartFault>) -> Result<bool, NoMemory>
    ensures { IfOk result (λ unread. MatchResult read (λ _. unread ≡ false)
        (λ fault. (fault ≡ PartFault.WrongForm) × (unread ≡ true))) }
{
    match read {
        Ok(_) => Ok(false),
        Err(PartFault::WrongForm) => Ok(true),
        Err(PartFault::NoMemory) => Err(NoMemory),
    }
}

/// Whether nothing is read at a key.
fn is_unread_at<C, T: Part<C> + Drop>(
    alloc: Global,
    context: &C,
    key: &str,
    value: &Value,
) -> Result<bool, NoMemory>
    ensures { IfOk result (λ unread. unread ≡ is_none (field key.now (T.part_in context.now) (view value.now))) }
{
    is_unread(read_field::<C, T>(alloc, context, key, value))
}

/// The place of the first value of which nothing is read.
fn first_unread<C, T: Part<C> + Drop>(
    alloc: Global,
    context: &C,
    values: &[Value],
) -> Result<Option<usize>, NoMemory>
    ensures place { IfOk result (λ found. found ≡ first_unread (T.part_in context.now) (map view values.now)) }
    ensures within { IfOk result (λ found. IfSome found (λ place. place < length values.now)) }
{
    'values: for (place, value) in values.iter().enumerate() {
        match T::read(alloc, context, value) {
            Ok(_) => {}
            Err(PartFault::WrongForm) => return Ok(Some(place)),
            Err(PartFault::NoMemory) => return Err(NoMemory),
        }
    }
    Ok(None)
}
