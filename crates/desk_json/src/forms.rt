//! The forms of what bodies hold at their keys.
ghost use Rattle.std.specs.Prelude.{◌≡◌, map, Some, None, IfOk, IsErrOf};
ghost use Rattle.serde_json.specs.Find.{as_str};
ghost use Rattle.serde_json.specs.View.{view, members_view};
ghost use Rattle.desk_json.specs.Forms.{accept_in, accept_of, cells_in, cells_of, count_in};
ghost use Rattle.desk_json.specs.Forms.{string_pair_in, string_pair_of, version_in, version_of};

use desk_base::{List, Str};
use desk_words::Accept;
use json_parts::{Part, PartFault, items, number};
use serde_json::{Map, Value};
use std::alloc::Global;
use std::marker::Model;

/// The context in which the parts of a body are read: it says nothing of them.
#[derive(Clone, Copy, Debug)]
pub struct InBody;

/// A string of any length.
impl Part<InBody> for Str {
    ghost part_in = { λ _. as_str };

    fn read(alloc: Global, _context: &InBody, value: &Value) -> Result<Str, PartFault> {
        match value.as_str() {
            Some(text) => Ok(Str::new(alloc, text)?),
            None => Err(PartFault::WrongForm),
        }
    }
}

/// A version of something published: its name and the number of the version.
impl Part<InBody> for (Str, u32) {
    ghost part_in = { λ _. version_in };

    fn read(alloc: Global, _context: &InBody, value: &Value) -> Result<(Str, u32), PartFault> {
        version_of(alloc, items(value)?)
    }
}

/// A version, read of the items of its array.
fn version_of(alloc: Global, items: &[Value]) -> Result<(Str, u32), PartFault>
    ensures version { IfOk result (λ version. version_of (map view items.now) ≡ Some version) }
    ensures none { IsErrOf result PartFault.WrongForm → version_of (map view items.now) ≡ None }
{
    let [name, version] = items else {
        return Err(PartFault::WrongForm);
    };
    let name = Str::read(alloc, &InBody, name)?;
    match number(u32::MAX, version) {
        Some(version) => Ok((name, version)),
        None => Err(PartFault::WrongForm),
    }
}

/// A number.
impl Part<InBody> for u32 {
    ghost part_in = { λ _. count_in };

    fn read(_alloc: Global, _context: &InBody, value: &Value) -> Result<u32, PartFault> {
        match number(u32::MAX, value) {
            Some(number) => Ok(number),
            None => Err(PartFault::WrongForm),
        }
    }
}

/// A pair of strings of any length.
impl Part<InBody> for (Str, Str) {
    ghost part_in = { λ _. string_pair_in };

    fn read(alloc: Global, _context: &InBody, value: &Value) -> Result<(Str, Str), PartFault> {
        string_pair_of(alloc, items(value)?)
    }
}

/// A pair of strings, read of the items of its array.
fn string_pair_of(alloc: Global, items: &[Value]) -> Result<(Str, Str), PartFault>
    ensures pair { IfOk result (λ pair. string_pair_of (map view items.now) ≡ Some pair) }
    ensures none { IsErrOf result PartFault.WrongForm → string_pair_of (map view items.now) ≡ None }
{
    let [first, second] = items else {
        return Err(PartFault::WrongForm);
    };
    let first = Str::read(alloc, &InBody, first)?;
    let second = Str::read(alloc, &InBody, second)?;
    Ok((first, second))
}

/// The cells of an object of strings, in byte order of their keys. A clause sees the list of them.
#[derive(Debug, Drop)]
pub struct Cells {
    cells: List<(Str, Str)>,
}

impl Model for Cells {
    ghost use Rattle.std.specs.Prelude.{ℕ, List};

    ghost Value = { List (List ℕ × List ℕ) };

    ghost view = { λ c. c.cells };
}

impl Cells {
    /// The cells, each the word of an attribute with its text.
    pub fn into_list(self) -> List<(Str, Str)>
        ensures { result ≡ self }
    {
        self.cells
    }
}

impl Part<InBody> for Cells {
    ghost part_in = { λ _. cells_in };

    fn read(alloc: Global, _context: &InBody, value: &Value) -> Result<Cells, PartFault> {
        match value.as_object() {
            Some(members) => Ok(Cells {
                cells: cells_of(alloc, members)?,
            }),
            None => Err(PartFault::WrongForm),
        }
    }
}

fn cells_of(alloc: Global, members: &Map<String, Value>) -> Result<List<(Str, Str)>, PartFault>
    ensures cells { IfOk result (λ cells. cells_of (members_view members.now.entries) ≡ Some cells) }
    ensures none { IsErrOf result PartFault.WrongForm → cells_of (members_view members.now.entries) ≡ None }
{
    let mut cells = List::new(alloc);
    'members: for (key, value) in members.iter() {
        let text = Str::read(alloc, &InBody, value)?;
        let name = Str::new(alloc, key.as_str())?;
        cells.push((name, text))?;
    }
    Ok(cells)
}

/// Which fixes a commit accepts.
impl Part<InBody> for Accept {
    ghost part_in = { λ _. accept_in };

    fn read(_alloc: Global, _context: &InBody, value: &Value) -> Result<Accept, PartFault> {
        let Some(word) = value.as_str() else {
            return Err(PartFault::WrongForm);
        };
        match accept_of(word) {
            Some(accept) => Ok(accept),
            None => Err(PartFault::WrongForm),
        }
    }
}

fn accept_of(word: &str) -> Option<Accept>
    ensures { result ≡ accept_of word.now }
{
    match word {
        "certain" => Some(Accept::Certain),
        "partial" => Some(Accept::Partial),
        _ => None,
    }
}
