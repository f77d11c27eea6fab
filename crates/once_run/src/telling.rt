//! What the programs say on standard error.
use case_json::pointer_of;
use desk_base::List;
use std::alloc::Global;

/// What a command says of its end beside its status. Which words that are is not promised.
#[derive(Debug, Drop)]
pub struct Said {
    /// Of a case that was refused the part that keeps it from being one.
    pointer: Option<List<u8>>,
}

impl Said {
    /// Nothing beside the status.
    pub fn nothing() -> Said {
        Said { pointer: None }
    }

    /// Points to what keeps a JSON text from being a case. Where there is no memory for it, nothing is said.
    pub(crate) fn point(&mut self, alloc: Global, bytes: &[u8]) {
        if let Ok(pointer) = pointer_of(alloc, bytes) {
            self.pointer = pointer;
        }
    }
}

/// Says in one line why a program ends with this exit status, as `tell` does, and which part of a case is wrong.
pub fn tell_said(rt: &impl Eprint, program: &str, code: u8, said: &Said) {
    match &said.pointer {
        Some(pointer) => tell_part(rt, program, pointer.as_slice()),
        None => tell(rt, program, code),
    }
}

fn tell_part(rt: &impl Eprint, program: &str, pointer: &[u8]) {
    let part = str::from_utf8(pointer).unwrap_or("");
    if part.is_empty() {
        drop(eprintln!(rt;
            "{program}: the input is no case: it has to be an object with the keys attributes, confirmed, masters, record \
            and rules, and may have the key folded"
        ))
    } else {
        drop(eprintln!(rt;
            "{program}: the input is no case: {part} is not as docs/formats.md has it"
        ))
    }
}

/// Says in one line why a program ends with this exit status; at 0 it says nothing. A line that can't be written is
/// lost, and changes no status. Which words are said is not promised.
pub fn tell(rt: &impl Eprint, program: &str, code: u8) {
    if let Some(why) = why(code) {
        drop(eprintln!(rt; "{program}: {why}"));
    }
}

fn why(code: u8) -> Option<&'static str> {
    match code {
        0 => None,
        1 => Some("these words are no command; the usage line says which are"),
        2 => Some("standard input can't be read"),
        3 => Some("standard output can't be written to"),
        4 => Some("the tables can't be used"),
        5 => Some("there is not enough memory"),
        6 => Some("a row of the tables is damaged; the line on standard output names it"),
        7 => Some("the input is refused, or ends too early; what comes before that is answered"),
        8 => Some("as many requests were answered as the limit says"),
        _ => Some("the port can't be listened on"),
    }
}
