//! Escapes: how bytes are written that no line of text can hold.
ghost use Rattle.std.specs.Prelude.{◌<◌, IfSome};

use desk_base::NoMemory;
use std::alloc::Global;

/// The most copies that a repetition writes.
const MAX_TIMES: usize = 1_000_000;

/// What may come next.
#[derive(Clone, Copy, Debug)]
enum Expected {
    /// A byte that stands for itself, or a backslash.
    Any,
    /// What stands after a backslash.
    Escape,
    /// The first hexadecimal digit of a byte.
    High,
    /// The second one, after this value of the first.
    Low(u8),
    /// A digit of a number of copies that begins so, or the colon after it.
    Times(usize),
}

/// Content that is written in escapes, as far as it is read.
#[derive(Debug, Drop)]
pub struct Unescaped {
    content: Vec<u8>,
    expected: Expected,
    /// The repetition that is open.
    repeated: Option<Repetition>,
}

/// A piece that is to be repeated.
#[derive(Debug, Drop)]
struct Repetition {
    /// Where it begins in the content.
    start: usize,
    /// How often it is to stand there.
    times: usize,
    /// The numbers that each copy has.
    numbers: Vec<CopyNumber>,
}

/// A number that stands in each copy of a piece, before the byte of the piece at this place.
#[derive(Clone, Copy, Debug)]
struct CopyNumber {
    place: usize,
    /// What the copy's number, counted from 1, is raised by.
    raised: usize,
}

/// Why a byte of an escape is not taken.
#[derive(Clone, Copy, Debug, PartialEq, Eq)]
pub enum EscapeFault {
    /// No escape is written so.
    BadEscape,
    /// There was no memory.
    NoMemory,
}

impl From<NoMemory> for EscapeFault {
    fn from(_want: NoMemory) -> EscapeFault {
        EscapeFault::NoMemory
    }
}

impl Unescaped {
    /// No content yet.
    pub fn new(alloc: Global) -> Unescaped {
        Unescaped {
            content: Vec::new(alloc),
            expected: Expected::Any,
            repeated: None,
        }
    }

    /// The content, where no escape is open.
    pub fn finish(self) -> Result<Vec<u8>, EscapeFault> {
        match (self.expected, self.repeated) {
            (Expected::Any, None) => Ok(self.content),
            _ => Err(EscapeFault::BadEscape),
        }
    }

    /// Reads a line.
    pub fn take_line(&mut self, line: &[u8]) -> Result<(), EscapeFault> {
        for byte in line {
            self.take(*byte)?;
        }
        Ok(())
    }

    fn take(&mut self, byte: u8) -> Result<(), EscapeFault> {
        match (self.expected, byte) {
            (Expected::Any, b'\\') => self.expected = Expected::Escape,
            (Expected::Any, _) => self.push(byte)?,
            (Expected::Escape, _) => self.take_escape(byte)?,
            (Expected::High, _) => self.expected = Expected::Low(digit(byte)?),
            (Expected::Low(high), _) => self.push((high << 4) | digit(byte)?)?,
            (Expected::Times(times), b':') => self.begin_piece(times),
            (Expected::Times(times), _) => self.expected = Expected::Times(more_times(
                times, byte,
            )?),
        }
        Ok(())
    }

    fn push(&mut self, byte: u8) -> Result<(), NoMemory> {
        self.expected = Expected::Any;
        self.content.push(byte)?;
        Ok(())
    }

    fn take_escape(&mut self, byte: u8) -> Result<(), EscapeFault> {
        match byte {
            b'n' => self.push(b'\n')?,
            b'r' => self.push(b'\r')?,
            b't' => self.push(b'\t')?,
            b'\\' => self.push(b'\\')?,
            b'x' => self.expected = Expected::High,
            b'#' => self.number_copies(false)?,
            b'+' => self.number_copies(true)?,
            b'(' if self.repeated.is_none() => self.expected = Expected::Times(0),
            b')' => self.end_piece()?,
            _ => return Err(EscapeFault::BadEscape),
        }
        Ok(())
    }

    fn begin_piece(&mut self, times: usize) {
        self.expected = Expected::Any;
        self.repeated = Some(Repetition {
            start: self.content.len(),
            times,
            numbers: Vec::new(*self.content.allocator()),
        });
    }

    /// Each copy of the piece that is open has its number here, or that number after as many as there are copies.
    fn number_copies(&mut self, after_all: bool) -> Result<(), EscapeFault> {
        self.expected = Expected::Any;
        let end = self.content.len();
        let Some(repetition) = &mut self.repeated else {
            return Err(EscapeFault::BadEscape);
        };
        let number = CopyNumber {
            place: end.saturating_sub(repetition.start),
            raised: if after_all { repetition.times } else { 0 },
        };
        match repetition.numbers.push(number) {
            Ok(()) => Ok(()),
            Err(_) => Err(EscapeFault::NoMemory),
        }
    }

    /// Writes the piece that is open as often as it is to stand.
    fn end_piece(&mut self) -> Result<(), EscapeFault> {
        self.expected = Expected::Any;
        let Some(repetition) = self.repeated.take() else {
            return Err(EscapeFault::BadEscape);
        };
        let piece = self.piece(repetition.start)?;
        self.content.truncate(repetition.start);
        for copy in 1..=repetition.times {
            self.push_copy(piece.as_slice(), repetition.numbers.as_slice(), copy)?;
        }
        Ok(())
    }

    /// Writes the copy of this number.
    fn push_copy(
        &mut self,
        piece: &[u8],
        numbers: &[CopyNumber],
        copy: usize,
    ) -> Result<(), NoMemory> {
        let mut begun = 0;
        for number in numbers {
            let alloc = *self.content.allocator();
            let text = format!(in alloc; "{}", copy.saturating_add(number.raised))?;
            self.push_all(piece.get(begun..number.place).unwrap_or(&[]))?;
            self.push_all(text.as_bytes())?;
            begun = number.place;
        }
        self.push_all(piece.get(begun..).unwrap_or(&[]))
    }

    fn push_all(&mut self, bytes: &[u8]) -> Result<(), NoMemory> {
        Ok(self.content.extend_from_slice(bytes)?)
    }

    fn piece(&self, start: usize) -> Result<Vec<u8>, NoMemory> {
        let piece = self.content.as_slice().get(start..).unwrap_or(&[]);
        Ok(Vec::from_slice(*self.content.allocator(), piece)?)
    }
}

/// The value of a hexadecimal digit.
fn digit(byte: u8) -> Result<u8, EscapeFault> {
    match byte {
        b'0'..=b'9' => Ok(byte - b'0'),
        b'a'..=b'f' => Ok(byte - b'a' + 10),
        b'A'..=b'F' => Ok(byte - b'A' + 10),
        _ => Err(EscapeFault::BadEscape),
    }
}

/// The number with one more decimal digit.
fn more_times(times: usize, byte: u8) -> Result<usize, EscapeFault> {
    if times <= MAX_TIMES && byte.is_ascii_digit() {
        Ok(times * 10 + usize::from(byte - b'0'))
    } else {
        Err(EscapeFault::BadEscape)
    }
}
