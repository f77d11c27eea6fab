//! Calls over databases in memory in which rows stand beforehand.
use crate::stored::Stored;
use desk_cases::{Answer, Case};
use std::test::Fail;

/// The names of the parts of a call.
struct Names {
    words: &'static str,
    status: &'static str,
    written: &'static str,
    left: &'static str,
}

/// Those of a case's first and second call.
const CALLS: [Names; 2] = [
    Names {
        words: "words",
        status: "status",
        written: "written",
        left: "left",
    },
    Names {
        words: "words 2",
        status: "status 2",
        written: "written 2",
        left: "left 2",
    },
];

/// What the calls of a case write, each by a keeper over the database that those before it left, and which rows stand
/// then.
pub fn told(case: &Case, stored: &mut Stored, answer: &mut Answer) -> Result<(), Fail> {
    for names in &CALLS {
        if case.part(names.status).is_some() {
            names.call(case, stored, answer)?;
        }
    }
    Ok(())
}

impl Names {
    /// Makes the call, and adds what it told and which rows stand then.
    fn call(&self, case: &Case, stored: &mut Stored, answer: &mut Answer) -> Result<(), Fail> {
        let before = stored.renew(answer.alloc())?;
        let told = stored.call(answer.alloc(), self.words_in(case), &[])?;
        answer.number(self.status, u64::from(told.status))?;
        answer.bytes(self.written, told.output.as_slice())?;
        let after = stored.renew(answer.alloc())?;
        if before.as_str() == after.as_str() {
            answer.text(self.left, "as before")
        } else {
            answer.text(self.left, after.as_str())
        }
    }

    /// The words of the call.
    fn words_in<'c>(&self, case: &'c Case) -> &'c [u8] {
        case.part(self.words).unwrap_or(b"report")
    }
}
