//! Reading a file of cases, line by line.
use crate::case::{Case, Part};
use crate::escapes::{EscapeFault, Unescaped};
use crate::fault::CaseFault;
use std::alloc::Global;

/// The cases of a file, in their order (docs/cases.md).
pub fn cases(alloc: Global, file: &[u8]) -> Result<Vec<Case>, CaseFault> {
    let Ok(text) = std::str::from_utf8(file) else {
        return Err(CaseFault::NotUtf8);
    };
    let mut draft = Draft {
        alloc,
        cases: Vec::new(alloc),
        case: None,
        part: None,
        line: 0,
    };
    for line in text.lines() {
        draft.take(line)?;
    }
    draft.end_case()?;
    Ok(draft.cases)
}

/// What is read of a file so far.
#[derive(Drop)]
struct Draft {
    alloc: Global,
    /// The cases that are closed.
    cases: Vec<Case>,
    /// The case that is open, with the parts that are closed.
    case: Option<Case>,
    /// The part that is open.
    part: Option<OpenPart>,
    /// The number of the line, counted from 1.
    line: u64,
}

/// A part whose lines are still to come.
#[derive(Drop)]
struct OpenPart {
    name: String,
    content: Content,
}

/// What is read of a part's content so far.
#[derive(Drop)]
enum Content {
    /// Lines that stand for themselves, and how many blank lines were passed over after them.
    Plain(Vec<u8>, usize),
    Escaped(Unescaped),
}

impl Draft {
    fn take(&mut self, line: &str) -> Result<(), CaseFault> {
        self.line = self.line.saturating_add(1);
        if let Some(title) = line.strip_prefix("== ") {
            self.end_case()?;
            self.begin_case(title)
        } else if let Some(head) = line.strip_prefix("-- ") {
            self.end_part()?;
            self.begin_part(head)
        } else {
            self.take_content(line)
        }
    }

    fn bad_line(&self) -> CaseFault {
        CaseFault::BadLine { line: self.line }
    }

    fn begin_case(&mut self, title: &str) -> Result<(), CaseFault> {
        self.case = Some(Case {
            title: String::from_str(self.alloc, title)?,
            parts: Vec::new(self.alloc),
        });
        Ok(())
    }

    /// Opens a part, and closes it where its content stands on the same line.
    fn begin_part(&mut self, head: &str) -> Result<(), CaseFault> {
        let (head, text) = match head.split_once(": ") {
            Some((head, text)) => (head, Some(text)),
            None => (head, None),
        };
        let (name, content) = match head.strip_suffix(", escaped") {
            Some(name) => (name, Content::Escaped(Unescaped::new(self.alloc))),
            None => (head, Content::Plain(Vec::new(self.alloc), 0)),
        };
        let name = String::from_str(self.alloc, name)?;
        self.part = Some(OpenPart { name, content });
        match text {
            Some(text) => {
                self.take_text(text)?;
                self.end_part()
            }
            None => Ok(()),
        }
    }

    /// Takes a line of the part that is open. Outside of parts only remarks before the first case, and blank
    /// lines, stand.
    fn take_content(&mut self, line: &str) -> Result<(), CaseFault> {
        if self.part.is_some() {
            self.take_line(line)
        } else if self.case.is_none() || line.is_empty() {
            Ok(())
        } else {
            Err(self.bad_line())
        }
    }

    fn take_line(&mut self, line: &str) -> Result<(), CaseFault> {
        if line.is_empty() {
            self.take_blank();
            return Ok(());
        }
        self.take_text(line)?;
        match &mut self.part {
            Some(
                OpenPart {
                    content: Content::Plain(content, _),
                    ..
                },
            ) => Ok(content.push(b'\n')?),
            _ => Ok(()),
        }
    }

    fn take_blank(&mut self) {
        if let Some(
            OpenPart {
                content: Content::Plain(_, blanks),
                ..
            },
        ) = &mut self.part
        {
            *blanks = blanks.saturating_add(1);
        }
    }

    fn take_text(&mut self, text: &str) -> Result<(), CaseFault> {
        let bad_line = self.bad_line();
        match &mut self.part {
            Some(part) => part.content.take(text.as_bytes(), bad_line),
            None => Err(bad_line),
        }
    }

    fn end_part(&mut self) -> Result<(), CaseFault> {
        let bad_line = self.bad_line();
        let Some(OpenPart { name, content }) = self.part.take() else {
            return Ok(());
        };
        let content = content.finish(bad_line)?;
        match &mut self.case {
            Some(case) => Ok(case.parts.push(Part { name, content })?),
            None => Err(bad_line),
        }
    }

    fn end_case(&mut self) -> Result<(), CaseFault> {
        self.end_part()?;
        if let Some(case) = self.case.take() {
            self.cases.push(case)?;
        }
        Ok(())
    }
}

impl Content {
    /// Takes a text, after the blank lines that were passed over.
    fn take(&mut self, text: &[u8], bad_line: CaseFault) -> Result<(), CaseFault> {
        match self {
            Content::Plain(content, blanks) => {
                for _ in 0..*blanks {
                    content.push(b'\n')?;
                }
                *blanks = 0;
                Ok(content.extend_from_slice(text)?)
            }
            Content::Escaped(unescaped) => told(unescaped.take_line(text), bad_line),
        }
    }

    fn finish(self, bad_line: CaseFault) -> Result<Vec<u8>, CaseFault> {
        match self {
            Content::Plain(content, _) => Ok(content),
            Content::Escaped(unescaped) => told(unescaped.finish(), bad_line),
        }
    }
}

/// What an escape came to, told of the line.
fn told<T: Drop>(read: Result<T, EscapeFault>, bad_line: CaseFault) -> Result<T, CaseFault> {
    match read {
        Ok(value) => Ok(value),
        Err(EscapeFault::BadEscape) => Err(bad_line),
        Err(EscapeFault::NoMemory) => Err(CaseFault::NoMemory),
    }
}
