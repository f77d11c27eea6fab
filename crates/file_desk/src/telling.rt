//! What the programs over `desk.db` say on standard error.
use fixdesk_run::{Said, tell_said};
use restore_run::RestoreEnd;
use row_store::OpenFault;
use sqlite::{Error, ErrorCode};

/// The program that ends, and its words.
#[derive(Clone, Copy)]
pub struct Called<'w> {
    pub program: &'w str,
    pub words: &'w [String],
}

impl<'w> Called<'w> {
    /// Says in one line why the program ends with this status, and what kept it from opening `desk.db`, where that was
    /// refused. Which words are said is not promised.
    pub fn tell(self, rt: &HostRuntime, code: u8, fault: Option<OpenFault>, said: &Said) {
        let program = self.program;
        match (code, fault, self.words) {
            (4, Some(OpenFault::Refused(Error::SqliteFailure(ErrorCode::DatabaseBusy))), _) => {
                drop(eprintln!(rt; "{program}: desk.db is used by another process"))
            }
            (4, Some(fault), _) => {
                drop(eprintln!(rt; "{program}: desk.db can't be used: {fault}"))
            }
            (4, None, _) => {
                drop(eprintln!(rt;
                    "{program}: the rows of desk.db can't be read; they may be of a newer version"
                ))
            }
            (9, _, [port, ..]) => {
                drop(eprintln!(rt; "{program}: port {port} is in use, or may not be listened on"))
            }
            _ => tell_said(rt, program, code, said),
        }
    }

    /// Says in one line why a dump was not restored. Which words are said is not promised.
    pub fn tell_restoring(self, rt: &HostRuntime, end: RestoreEnd, fault: Option<OpenFault>) {
        let program = self.program;
        match end {
            RestoreEnd::Unavailable if fault.is_none() => {
                drop(eprintln!(rt; "{program}: the rows of the dump can't be put into desk.db"))
            }
            RestoreEnd::Damaged => {
                drop(eprintln!(rt;
                    "{program}: a row of the dump is damaged; the line on standard output names it"
                ))
            }
            RestoreEnd::Refused(line) => {
                drop(eprintln!(rt;
                    "{program}: standard input is no dump: line {line} is not as docs/formats.md has it"
                ))
            }
            RestoreEnd::Standing => {
                drop(eprintln!(rt; "{program}: desk.db is there already, and stays as it is"))
            }
            end => self.tell(rt, end.code(), fault, &Said::nothing()),
        }
    }
}
