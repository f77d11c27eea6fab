//! What the words of the command line ask for.
ghost use Rattle.std.specs.Prelude.{◌≡◌, ◌≤◌, map, string_bytes, IfSome};
ghost use Rattle.fixdesk_run.specs.Task.{alone, limited, made_from, make_of, pipe_of, start_of, task_of};

use http_cut::positive;

/// The most requests that `pipe` answers, where no word says how many.
pub const USUAL_LIMIT: u32 = 100_000;

/// The most requests that a word may say.
pub const MAX_LIMIT: u32 = 1_000_000;

/// The most digits of such a word.
const LIMIT_DIGITS: usize = 7;

/// The most sessions that `make` opens.
pub const MAX_MADE_SESSIONS: u32 = 5_000;

/// The most digits of their number.
const SESSION_DIGITS: usize = 4;

/// The greatest start, 2^31 - 1.
pub const MAX_START: u32 = 2_147_483_647;

/// The most digits of a start.
const START_DIGITS: usize = 10;

/// A command of the program.
#[derive(Clone, Copy, Debug, PartialEq, Eq)]
pub enum Task {
    /// `once`: the case that is read is answered.
    Once,
    /// `pipe`: the requests that are read are answered, up to this limit.
    Pipe(u32),
    /// `report`: the desk's report is written.
    Report,
    /// `make`: the stream is served that opens so many sessions, by draws from a start, and its summary is written.
    Make { sessions: u32, start: u32 },
}

/// The task that the words ask for, which are without the program's name. None where they are no command.
pub fn task_of(words: &[String]) -> Option<Task>
    ensures { result ≡ task_of (map string_bytes words.now) }
{
    let [word, others @ ..] = words else {
        return None;
    };
    match word.as_str() {
        "once" => alone(Task::Once, others),
        "pipe" => pipe_of(others),
        "report" => alone(Task::Report, others),
        "make" => make_of(others),
        _ => None,
    }
}

/// The task, where no further word stands.
fn alone(task: Task, others: &[String]) -> Option<Task>
    ensures { result ≡ alone task (map string_bytes others.now) }
{
    match others {
        [] => Some(task),
        _ => None,
    }
}

/// The task of the words after `pipe`.
fn pipe_of(others: &[String]) -> Option<Task>
    ensures { result ≡ pipe_of (map string_bytes others.now) }
{
    match others {
        [] => Some(Task::Pipe(USUAL_LIMIT)),
        [option, digits] if option.as_str() == "--limit" => {
            limited(positive(digits.as_str().as_bytes(), LIMIT_DIGITS))
        }
        _ => None,
    }
}

/// The task with this limit, where it is not above the greatest.
fn limited(limit: Option<u64>) -> Option<Task>
    ensures { result ≡ limited limit }
{
    match limit {
        Some(limit) if limit <= u64::from(MAX_LIMIT) => Some(Task::Pipe(limit as u32)),
        _ => None,
    }
}

/// The task of the words after `make`.
fn make_of(others: &[String]) -> Option<Task>
    ensures { result ≡ make_of (map string_bytes others.now) }
{
    match others {
        [sessions, start] => made_from(
            positive(sessions.as_str().as_bytes(), SESSION_DIGITS),
            start_of(start.as_str()),
        ),
        _ => None,
    }
}

/// The start that a word is: unlike a number of sessions it may be 0.
fn start_of(digits: &str) -> Option<u64>
    ensures { result ≡ start_of digits.now }
{
    if digits == "0" {
        Some(0)
    } else {
        positive(digits.as_bytes(), START_DIGITS)
    }
}

/// The task with these numbers, where they are not above the greatest.
fn made_from(sessions: Option<u64>, start: Option<u64>) -> Option<Task>
    ensures { result ≡ made_from sessions start }
{
    match (sessions, start) {
        (Some(sessions), Some(start))
            if sessions <= u64::from(MAX_MADE_SESSIONS) && start <= u64::from(MAX_START) => {
            Some(Task::Make {
                sessions: sessions as u32,
                start: start as u32,
            })
        }
        _ => None,
    }
}
