//! A JSON text that is written token by token. A clause sees its tokens.
ghost use Rattle.std.specs.Prelude.{◌≡◌, [], IfOk, OnOk, decimal};
ghost use Rattle.json.specs.Token.{begin_array, begin_object, boolean, end_array, end_object, key, null, number};
ghost use Rattle.json.specs.Token.{string};
ghost use Rattle.serde_json.specs.Data.{Data};
ghost use Rattle.serde_json.specs.Written.{compact_text};
ghost use Rattle.json_parts.specs.Writing.{with_token, with_value};

use desk_base::List;
use json::Writer;
use std::alloc::{AllocError, Global};
use std::marker::Model;

/// How many bytes a text has room for at first.
const ROOM: usize = 1024;

/// A JSON text that is being written: no space in it, the shortest escapes, commas and colons where they belong.
#[derive(Drop)]
pub struct JsonText {
    writer: Writer,
}

impl Model for JsonText {
    ghost use Rattle.std.specs.Prelude.{◌≡◌, List, []};
    ghost use Rattle.json.specs.Token.{Token, tokens_code};

    ghost Value = { List Token };

    ghost coded = { tokens_code };

    ghost view = { λ text. text.writer.tokens };

    ghost invariant = { λ text. text.writer.before ≡ [] };
}

impl JsonText {
    /// A text of which nothing is written.
    pub fn new(alloc: Global) -> Result<JsonText, AllocError>
        ensures { IfOk result (λ text. text ≡ []) }
    {
        let room = Vec::with_capacity(alloc, ROOM)?;
        Ok(JsonText {
            writer: Writer::new(room),
        })
    }

    /// Begins an object. Its keys are to be written in byte order.
    pub fn begin_object(&mut self) -> Result<(), AllocError>
        ensures { OnOk result (self.new ≡ with_token self.old begin_object) }
    {
        self.writer.begin_object()
    }

    /// Ends the object that was begun last.
    pub fn end_object(&mut self) -> Result<(), AllocError>
        ensures { OnOk result (self.new ≡ with_token self.old end_object) }
    {
        self.writer.end_object()
    }

    /// Begins an array.
    pub fn begin_array(&mut self) -> Result<(), AllocError>
        ensures { OnOk result (self.new ≡ with_token self.old begin_array) }
    {
        self.writer.begin_array()
    }

    /// Ends the array that was begun last.
    pub fn end_array(&mut self) -> Result<(), AllocError>
        ensures { OnOk result (self.new ≡ with_token self.old end_array) }
    {
        self.writer.end_array()
    }

    /// Writes the key of a member.
    pub fn key(&mut self, name: &str) -> Result<(), AllocError>
        ensures { OnOk result (self.new ≡ with_token self.old (key name.now)) }
    {
        self.writer.key(name)
    }

    /// Writes a string.
    pub fn string(&mut self, text: &str) -> Result<(), AllocError>
        ensures { OnOk result (self.new ≡ with_token self.old (string text.now)) }
    {
        self.writer.string(text)
    }

    /// Writes a whole number, in decimal digits.
    pub fn number(&mut self, n: u64) -> Result<(), AllocError>
        ensures { OnOk result (self.new ≡ with_token self.old (number (decimal n))) }
    {
        self.writer.u64(n)
    }

    /// Writes `true` or `false`.
    pub fn boolean(&mut self, flag: bool) -> Result<(), AllocError>
        ensures { OnOk result (self.new ≡ with_token self.old (boolean flag)) }
    {
        self.writer.boolean(flag)
    }

    /// Writes `null`.
    pub fn null(&mut self) -> Result<(), AllocError>
        ensures { OnOk result (self.new ≡ with_token self.old null) }
    {
        self.writer.null()
    }

    /// The bytes of the text. Where one value was written, they are its compact text.
    pub fn into_bytes(self) -> List<u8>
        ensures { (value : Data) → self ≡ with_value [] value → result ≡ compact_text value }
    {
        List::from_vec(self.writer.into_inner())
    }
}
