//! What a sheet is cleaned by, besides rules and masters.
ghost use Rattle.std.specs.Prelude.{◌≡◌, ◌<◌, [], IfSome, length, slice_index_or};
ghost use Rattle.sheet_clean.specs.Header.{attribute_of};
ghost use Rattle.sheet_clean.specs.Setting.{attribute_name, is_known};

use desk_base::{List, Text, place_of};
use fix_model::Names;

/// The names of attributes, rules and masters, which attributes are known, and how sheets are written.
#[derive(Debug, Drop)]
pub struct Setting {
    pub names: Names,
    /// For each attribute whether its cells are known to be right. A blank is never known.
    pub known: List<bool>,
    /// The byte between the fields of the sheet that comes in, of the clean one and of those of changes: no quote, CR
    /// or LF.
    pub delimiter: u8,
    /// The name of a last column of the clean sheet, with the verdict of each row, if one is wanted.
    pub verdict: Option<Text>,
}

impl Setting {
    /// The name of an attribute, counted from 0.
    pub(crate) fn attribute_name(&self, attribute: usize) -> &Text
        requires { attribute < length self.now.names.attributes }
        ensures { result.now ≡ attribute_name self.now attribute }
    {
        &self.names.attributes.as_slice()[attribute]
    }

    /// The name of a rule, counted from 0.
    pub(crate) fn rule_name(&self, rule: u16) -> &Text
        requires { rule < length self.now.names.rules }
        ensures { result.now ≡ slice_index_or self.now.names.rules rule [] }
    {
        &self.names.rules.as_slice()[usize::from(rule)]
    }

    /// The name of a master, counted from 0.
    pub(crate) fn master_name(&self, master: u16) -> &Text
        requires { master < length self.now.names.masters }
        ensures { result.now ≡ slice_index_or self.now.names.masters master [] }
    {
        &self.names.masters.as_slice()[usize::from(master)]
    }

    /// Whether an attribute, counted from 0, is known.
    pub(crate) fn is_known(&self, attribute: usize) -> bool
        requires { attribute < length self.now.known }
        ensures { result ≡ is_known self.now attribute }
    {
        self.known.as_slice()[attribute]
    }

    /// The attribute that a column has the cells of, counted from 0, if it is one.
    pub(crate) fn attribute_of(&self, column: &str) -> Option<usize>
        ensures found { result ≡ attribute_of self.now column.now }
        ensures within { IfSome result (λ attribute. attribute < length self.now.names.attributes) }
    {
        place_of(self.names.attributes.as_slice(), column)
    }
}
