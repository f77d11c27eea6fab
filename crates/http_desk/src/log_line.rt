//! The line by which an answered request is logged. Room for it is taken beforehand.
ghost use Rattle.std.specs.Prelude.{◌≡◌, [], IfOk};

use crate::log::Log;
use desk_base::{MAX_HEAD as HEAD, NoMemory};
use std::alloc::Global;
use std::marker::Model;

/// The most bytes of a line: method and target are parts of a head, with a blank after each, a status and LF.
const ROOM: usize = HEAD + 6;

/// The line of the request that was answered last; no bytes where none was. A clause sees it as its bytes.
#[derive(Drop)]
pub struct LogLine {
    line: Vec<u8>,
}

impl Model for LogLine {
    ghost use Rattle.std.specs.Prelude.{◌≤◌, ℕ, List, vec_capacity};
    ghost use Rattle.http_desk.specs.declared.log_line.TheConstants.{ROOM};

    ghost Value = { List ℕ };

    ghost view = { λ l. l.line.items };

    ghost invariant = { λ l. ROOM ≤ vec_capacity l.line };
}

impl LogLine {
    /// No line, with room for one.
    pub fn new(alloc: Global) -> Result<LogLine, NoMemory>
        ensures { IfOk result (λ line. line ≡ []) }
    {
        let mut line = Vec::new(alloc);
        line.reserve(ROOM)?;
        Ok(LogLine { line })
    }

    /// Its bytes.
    pub fn bytes(&self) -> &[u8]
        ensures { result.now ≡ self.now }
    {
        self.line.as_slice()
    }
}

impl Log for LogLine {
    ghost use Rattle.std.specs.Prelude.{Some};

    ghost line = { λ l. Some l };

    fn clear(&mut self) {
        self.line.clear();
    }

    fn tell(&mut self, method: &[u8], target: &[u8], text: &[u8]) {
        self.line.clear();
        self.line.extend_from_slice(method).unwrap();
        self.line.push(b' ').unwrap();
        self.line.extend_from_slice(target).unwrap();
        self.line.push(b' ').unwrap();
        self.line.extend_from_slice(&text[9..12]).unwrap();
        self.line.push(b'\n').unwrap();
    }
}
