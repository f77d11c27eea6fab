//! Regions: attributes with a tableau of texts, and where confirming these texts leads.
ghost use Rattle.std.specs.Prelude.{◌≡◌, [], ◌==◌, ◌<◌, length, position, unwrap_or, IfOk, IfSome};
ghost use Rattle.fix_model.specs.declared.kit.Kit.{Kit as KitOf};
ghost use Rattle.fix_model.specs.Regions.{row_state, row_texts, text_for};
ghost use Rattle.fix_model.specs.States.{Fits};

use crate::state::State;
use desk_base::{Duplicate, List, NoMemory, Text, flags_of};
use std::alloc::Global;

/// Attributes that are to be confirmed together, and a tableau of texts for them.
#[derive(Debug, Drop)]
pub struct Region {
    /// The attributes, counted from 0.
    pub attrs: List<u16>,
    /// The tableau: in each row a text for each attribute of the region, in the same order.
    pub rows: List<List<Text>>,
}

/// Where it leads to confirm exactly a region's attributes, with the texts of one of its rows.
#[derive(Clone, Copy, Debug, PartialEq, Eq)]
pub enum RowVerdict {
    /// A unique fix that covers every attribute.
    Certain,
    /// A unique fix that leaves some attribute uncovered.
    Partial,
    /// Two orders of applications end in two records.
    Conflict,
}

impl Duplicate for Region {
    fn copy(&self) -> Result<Region, NoMemory> {
        Ok(Region {
            attrs: self.attrs.copy()?,
            rows: self.rows.copy()?,
        })
    }
}

/// The state of a region row: its texts are confirmed on exactly these attributes, and every other of so many
/// attributes is an uncovered blank.
pub fn row_state(
    alloc: Global,
    width: u16,
    attributes: &[u16],
    texts: &[Text],
) -> Result<State, NoMemory>
    requires { length texts.now ≡ length attributes.now }
    ensures state { IfOk result (λ state. state ≡ row_state width attributes.now texts.now) }
    ensures fits { IfOk result (λ state. (kit : KitOf) → kit.width ≡ width → Fits kit state) }
{
    let typed = row_texts(alloc, width, attributes, texts)?;
    let confirmed = flags_of(alloc, width, attributes)?;
    let state = State::new(alloc, typed, confirmed.as_slice())?;
    Ok(state)
}

fn row_texts(
    alloc: Global,
    width: u16,
    attributes: &[u16],
    texts: &[Text],
) -> Result<List<Text>, NoMemory>
    requires { length texts.now ≡ length attributes.now }
    ensures texts { IfOk result (λ typed. typed ≡ row_texts width attributes.now texts.now) }
    ensures whole { IfOk result (λ typed. length typed ≡ width) }
{
    let mut typed = List::new(alloc);
    'attributes: for attribute in 0..width {
        typed.push(copy_for(alloc, attributes, texts, attribute)?)?;
    }
    Ok(typed)
}

fn copy_for(
    alloc: Global,
    attributes: &[u16],
    texts: &[Text],
    attribute: u16,
) -> Result<Text, NoMemory>
    requires { length texts.now ≡ length attributes.now }
    ensures { IfOk result (λ text. text ≡ unwrap_or (text_for attributes.now texts.now attribute) []) }
{
    match place_of(attributes, attribute) {
        Some(place) => texts[place].copy(),
        None => Text::of(alloc, ""),
    }
}

fn place_of(attributes: &[u16], attribute: u16) -> Option<usize>
    ensures found { result ≡ position (λ one. one == attribute) attributes.now }
    ensures within { IfSome result (λ place. place < length attributes.now) }
{
    attributes.iter().position(|one| *one == attribute)
}
