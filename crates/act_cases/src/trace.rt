//! The trace of tables: a number by which a change of them shows, the hash FNV-1a of what requests may change.
use desk_base::{Room, Text};
use desk_words::{Act, BatchRow, ClerkRow, RecordRow, SessionRow, Stage, Tables};

/// What FNV-1a begins with, and what it multiplies by, for 64 bits.
const OFFSET: u64 = 0xcbf2_9ce4_8422_2325;

const PRIME: u64 = 0x0000_0100_0000_01b3;

/// A hash of what was taken so far.
#[derive(Clone, Copy, PartialEq, Eq)]
pub struct Trace {
    hash: u64,
}

impl Trace {
    /// The trace of tables: how many rows are published, and the clerks with their own rows.
    pub fn of(tables: &Tables) -> Trace {
        let mut trace = Trace { hash: OFFSET };
        trace.take_count(tables.schemas.len());
        trace.take_count(tables.masters.len());
        trace.take_count(tables.rulebooks.len());
        trace.take_count(tables.editions.len());
        trace.take_count(tables.regions.len());
        trace.take_clerks(tables.clerks.as_slice());
        trace.take_sessions(tables.sessions.as_slice());
        trace.take_records(tables.records.as_slice());
        trace.take_batches(tables.batches.as_slice());
        trace
    }

    fn take(&mut self, byte: u8) {
        self.hash = (self.hash ^ u64::from(byte)).wrapping_mul(PRIME);
    }

    fn take_bytes(&mut self, bytes: &[u8]) {
        for byte in bytes {
            self.take(*byte);
        }
    }

    fn take_number(&mut self, number: u64) {
        self.take_bytes(&number.to_be_bytes());
    }

    fn take_count(&mut self, count: usize) {
        self.take_number(count as u64);
    }

    fn take_texts(&mut self, texts: &[Text]) {
        for text in texts {
            self.take_count(text.as_str().len());
            self.take_bytes(text.as_str().as_bytes());
        }
    }

    fn take_flags(&mut self, flags: &[bool]) {
        for flag in flags {
            self.take(u8::from(*flag));
        }
    }

    fn take_clerks(&mut self, clerks: &[ClerkRow]) {
        for clerk in clerks {
            self.take_bytes(clerk.name.as_str().as_bytes());
            self.take_number(clerk.last);
            self.take_bytes(&clerk.digest.bytes);
            self.take(act_number(clerk.act));
            self.take_number(u64::from(clerk.target));
        }
    }

    fn take_sessions(&mut self, lists: &[Room<SessionRow>]) {
        for list in lists {
            self.take_count(list.len());
            for session in list.as_slice() {
                self.take_session(session);
            }
        }
    }

    fn take_session(&mut self, session: &SessionRow) {
        self.take_number(u64::from(session.edition));
        self.take_texts(session.typed.as_slice());
        self.take_flags(session.confirmed.as_slice());
        self.take(stage_number(session.stage));
        self.take_number(u64::from(session.batch));
    }

    fn take_records(&mut self, lists: &[Room<RecordRow>]) {
        for list in lists {
            self.take_count(list.len());
            for row in list.as_slice() {
                self.take_number(u64::from(row.session));
                self.take_texts(row.texts.as_slice());
                self.take(u8::from(row.certain));
            }
        }
    }

    fn take_batches(&mut self, lists: &[Room<BatchRow>]) {
        for list in lists {
            self.take_count(list.len());
            for batch in list.as_slice() {
                self.take_number(u64::from(batch.edition));
                self.take_number(u64::from(batch.first));
                self.take_number(u64::from(batch.count));
            }
        }
    }
}

fn act_number(act: Act) -> u8 {
    match act {
        Act::Nothing => 0,
        Act::Clerk => 1,
        Act::Schema => 2,
        Act::Master => 3,
        Act::Rulebook => 4,
        Act::Edition => 5,
        Act::Region => 6,
        Act::Opened => 7,
        Act::Changed => 8,
        Act::Committed => 9,
        Act::Batched => 10,
    }
}

fn stage_number(stage: Stage) -> u8 {
    match stage {
        Stage::Active => 0,
        Stage::Committed => 1,
        Stage::Abandoned => 2,
    }
}
