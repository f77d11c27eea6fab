//! Values that are shown as JSON.
ghost use Rattle.std.specs.Prelude.{◌≡◌, [], ◌∷◌, map, IfOk, OnOk};
ghost use Rattle.serde_json.specs.Data.{Data, boolean, string};
ghost use Rattle.serde_json.specs.Written.{compact_text};
ghost use Rattle.json_parts.specs.Shapes.{list_of, or_null, whole};
ghost use Rattle.json_parts.specs.Writing.{with_member, with_value};

use desk_base::{List, NoMemory, Str, Text};
use json_parts::JsonText;
use std::alloc::{AllocError, Global};

/// What is shown as a JSON value.
pub trait Show {
    /// The value that it is shown as.
    ghost shown: { Self → Data };

    /// Writes the value after what was written.
    fn show(&self, out: &mut JsonText) -> Result<(), AllocError>
        ensures { OnOk result (out.new ≡ with_value out.old (shown self.now)) };
}

/// The text of what is shown.
pub fn text<T: Show>(alloc: Global, shown: &T) -> Result<List<u8>, NoMemory>
    ensures { IfOk result (λ text. text ≡ compact_text (T.shown shown.now)) }
{
    let mut out = JsonText::new(alloc)?;
    shown.show(&mut out)?;
    Ok(out.into_bytes())
}

/// Writes a member of an object: its key, and what is shown.
pub fn field<T: Show>(out: &mut JsonText, name: &str, shown: &T) -> Result<(), AllocError>
    ensures { OnOk result (out.new ≡ with_member out.old name.now (T.shown shown.now)) }
{
    out.key(name)?;
    shown.show(out)
}

/// A string.
impl Show for &str {
    ghost shown = { λ text. string text.now };

    fn show(&self, out: &mut JsonText) -> Result<(), AllocError> {
        out.string(*self)
    }
}

/// A string.
impl Show for Text {
    ghost shown = { string };

    fn show(&self, out: &mut JsonText) -> Result<(), AllocError> {
        out.string(self.as_str())
    }
}

/// A string.
impl Show for Str {
    ghost shown = { string };

    fn show(&self, out: &mut JsonText) -> Result<(), AllocError> {
        out.string(self.as_str())
    }
}

impl Show for bool {
    ghost shown = { boolean };

    fn show(&self, out: &mut JsonText) -> Result<(), AllocError> {
        out.boolean(*self)
    }
}

impl Show for u8 {
    ghost shown = { whole };

    fn show(&self, out: &mut JsonText) -> Result<(), AllocError> {
        out.number(u64::from(*self))
    }
}

impl Show for u16 {
    ghost shown = { whole };

    fn show(&self, out: &mut JsonText) -> Result<(), AllocError> {
        out.number(u64::from(*self))
    }
}

impl Show for u32 {
    ghost shown = { whole };

    fn show(&self, out: &mut JsonText) -> Result<(), AllocError> {
        out.number(u64::from(*self))
    }
}

impl Show for u64 {
    ghost shown = { whole };

    fn show(&self, out: &mut JsonText) -> Result<(), AllocError> {
        out.number(*self)
    }
}

/// The value, or null where there is none.
impl<T: Show> Show for Option<T> {
    ghost shown = { or_null T.shown };

    fn show(&self, out: &mut JsonText) -> Result<(), AllocError> {
        match self {
            None => out.null(),
            Some(value) => value.show(out),
        }
    }
}

/// An array of two.
impl<A: Show, B: Show> Show for (A, B) {
    ghost shown = { λ pair. list_of (A.shown pair.0 ∷ B.shown pair.1 ∷ []) };

    fn show(&self, out: &mut JsonText) -> Result<(), AllocError> {
        out.begin_array()?;
        self.0.show(out)?;
        self.1.show(out)?;
        out.end_array()
    }
}

/// An array.
impl<T: Show> Show for List<T> {
    ghost shown = { λ items. list_of (map T.shown items) };

    fn show(&self, out: &mut JsonText) -> Result<(), AllocError> {
        show_all(out, self.as_slice())
    }
}

/// Writes an array of what is shown of each item.
pub fn show_all<T: Show>(out: &mut JsonText, items: &[T]) -> Result<(), AllocError>
    ensures { OnOk result (out.new ≡ with_value out.old (list_of (map T.shown items.now))) }
{
    out.begin_array()?;
    'items: for item in items {
        item.show(out)?;
    }
    out.end_array()
}
