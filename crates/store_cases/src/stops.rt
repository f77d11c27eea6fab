//! The script over files that stop after so many calls: none, one, two, and so on to the first run that none of them
//! stops.
use crate::disks::{Disks, Standing};
use crate::sent::Sending;
use crate::stopping_store::StoppingStore;
use crate::stored::Stored;
use desk_cases::Answer;
use desk_trials::{Script, Table, Told};
use std::alloc::Global;
use std::test::Fail;

/// The most calls after which files are tried.
const MOST: u64 = 10_000;

/// The status of a keeper that did not load.
const NOT_LOADED: u8 = 4;

/// What is tried: the first requests of the script, over files in which the rows of a case stand, and which rows stand
/// before the keeper loads, when it has loaded, and after each request, where nothing stops.
#[derive(Drop)]
struct Trial<'c> {
    script: &'c Script,
    count: usize,
    standing: Standing,
    states: Vec<String>,
}

/// What the stops in one step left.
#[derive(Clone, Copy, PartialEq, Eq)]
enum Left {
    /// There was none.
    NoStop,
    /// Each left the rows before the step, or those after it, and the rest of the script is answered over them.
    Whole,
    /// After so many calls other rows were left.
    Torn(u64),
    /// After so many calls the rest of the script was not answered as without a stop.
    NotResumed(u64),
}

/// What stops in each step leave. The keeper over a database in memory has the rows of the case, and was not called
/// yet.
pub fn told<S: StoppingStore>(
    sending: Sending<'_>,
    stored: &mut Stored,
    answer: &mut Answer,
) -> Result<(), Fail> {
    let trial = Trial::of::<S>(answer.alloc(), sending, stored)?;
    let mut left = vec![in answer.alloc(); Left::NoStop; trial.count.saturating_add(1)]?;
    trial.stop_each::<S>(answer.alloc(), left.as_mut_slice())?;
    add_left(left.as_slice(), answer)
}

/// Notes what a stop in a step left, where no earlier one left what is wrong.
fn note(left: &mut [Left], step: usize, found: Left) {
    if let Some(place) = left.get_mut(step) {
        if matches!(*place, Left::NoStop | Left::Whole) {
            *place = found;
        }
    }
}

/// Adds what the stops in each step left, in lines.
fn add_left(left: &[Left], answer: &mut Answer) -> Result<(), Fail> {
    let mut table = Table::new(answer.alloc());
    for (step, left) in left.iter().enumerate() {
        table.add(answer.alloc(), step, left.text(answer.alloc())?)?;
    }
    let lines = table.finish(answer.alloc())?;
    answer.text("wanted", lines.as_str())
}

impl Left {
    fn text(self, alloc: Global) -> Result<String, Fail> {
        match self {
            Left::NoStop => Ok(String::from_str(alloc, "no stop")?),
            Left::Whole => Ok(String::from_str(alloc, "before or after")?),
            Left::Torn(calls) => Ok(format!(in alloc; "torn after {calls} calls")?),
            Left::NotResumed(calls) => Ok(format!(in alloc; "not resumed after {calls} calls")?),
        }
    }
}

impl<'c> Trial<'c> {
    /// The trial of a case, where a keeper over a database in memory has its rows.
    fn of<S: StoppingStore>(
        alloc: Global,
        sending: Sending<'c>,
        stored: &mut Stored,
    ) -> Result<Trial<'c>, Fail> {
        let count = count_of(sending)?;
        let standing = Standing::with_rows::<S>(alloc, sending.case.text("rows"))?;
        let states = states(alloc, sending.script, stored, count)?;
        Ok(Trial {
            script: sending.script,
            count,
            standing,
            states,
        })
    }

    /// Has files stop after no call, one, two, and so on, and notes what each stop left.
    fn stop_each<S: StoppingStore>(&self, alloc: Global, left: &mut [Left]) -> Result<(), Fail> {
        for calls in 0..MOST {
            match self.stop::<S>(alloc, calls)? {
                Some((step, found)) => note(left, step, found),
                None => return Ok(()),
            }
        }
        Err(Fail::new("files stop after many calls"))
    }

    /// The step in which files stop after so many calls, 0 for the load and else the number of a request, and what that
    /// stop left; none where they do not stop.
    fn stop<S: StoppingStore>(
        &self,
        alloc: Global,
        calls: u64,
    ) -> Result<Option<(usize, Left)>, Fail> {
        let mut disks: Disks<S> = Disks::holding(alloc, &self.standing, calls)?;
        let stopped = self.stop_over(alloc, &mut disks, calls);
        drop(disks);
        stopped
    }

    fn stop_over<S: StoppingStore>(
        &self,
        alloc: Global,
        disks: &mut Disks<S>,
        calls: u64,
    ) -> Result<Option<(usize, Left)>, Fail> {
        match self.step_of(alloc, disks)? {
            Some(step) => Ok(Some((step, self.left(alloc, disks, step, calls)?))),
            None => Ok(None),
        }
    }

    /// The step in which files stop.
    fn step_of<S: StoppingStore>(
        &self,
        alloc: Global,
        disks: &mut Disks<S>,
    ) -> Result<Option<usize>, Fail> {
        if !disks.are_open() {
            return Ok(Some(0));
        }
        let requests = self.script.first(alloc, self.count)?;
        let told = disks.serve(alloc, requests.as_slice())?;
        Ok(self.stopped_in(&told))
    }

    /// The step in which the run stopped that told this.
    fn stopped_in(&self, told: &Told) -> Option<usize> {
        let accepted = self.script.accepted(told.output.as_slice());
        if told.status == NOT_LOADED {
            Some(0)
        } else if accepted < self.count {
            Some(accepted.saturating_add(1))
        } else {
            None
        }
    }

    /// What a stop in a step, after so many calls, left.
    fn left<S: StoppingStore>(
        &self,
        alloc: Global,
        disks: &mut Disks<S>,
        step: usize,
        calls: u64,
    ) -> Result<Left, Fail> {
        disks.crash(alloc)?;
        if !self.stand_at(step, disks.renew(alloc)?.as_str()) {
            Ok(Left::Torn(calls))
        } else if self.is_resumed(alloc, disks, step)? {
            Ok(Left::Whole)
        } else {
            Ok(Left::NotResumed(calls))
        }
    }

    /// Whether these rows stand before a step, or after it.
    fn stand_at(&self, step: usize, found: &str) -> bool {
        self.states
            .iter()
            .skip(step)
            .take(2)
            .any(|state| state.as_str() == found)
    }

    /// Whether the requests from that of a step on are answered as in the script, and leave the rows that it leaves.
    fn is_resumed<S: StoppingStore>(
        &self,
        alloc: Global,
        disks: &mut Disks<S>,
        step: usize,
    ) -> Result<bool, Fail> {
        let is_answered = self.is_answered(alloc, disks, step.saturating_sub(1))?;
        let rows = disks.renew(alloc)?;
        Ok(is_answered && self.is_last(rows.as_str()))
    }

    /// Whether the requests from a place on, counted from 0, are answered as in the script.
    fn is_answered<S: StoppingStore>(
        &self,
        alloc: Global,
        disks: &mut Disks<S>,
        place: usize,
    ) -> Result<bool, Fail> {
        let requests = self.script.requests(alloc, place, self.count)?;
        let told = disks.serve(alloc, requests.as_slice())?;
        let wanted = self.script.responses(alloc, place, self.count)?;
        Ok(told.output.as_slice() == wanted.as_slice())
    }

    /// Whether these rows are those after the last request.
    fn is_last(&self, rows: &str) -> bool {
        match self.states.last() {
            Some(state) => state.as_str() == rows,
            None => false,
        }
    }
}

/// How many requests of the script a case sends.
fn count_of(sending: Sending<'_>) -> Result<usize, Fail> {
    match sending.case.number("requests") {
        Some(count) => Ok(
            usize::try_from(count)
                .unwrap_or(usize::MAX)
                .min(sending.script.len()),
        ),
        None => Err(Fail::new("a case does not say how many requests are sent")),
    }
}

/// Which rows stand before the keeper loads, when it has loaded, and after each of the first requests.
fn states(
    alloc: Global,
    script: &Script,
    stored: &mut Stored,
    count: usize,
) -> Result<Vec<String>, Fail> {
    let mut states = Vec::new(alloc);
    add_states(alloc, &mut states, script, stored, count)?;
    Ok(states)
}

fn add_states(
    alloc: Global,
    states: &mut Vec<String>,
    script: &Script,
    stored: &mut Stored,
    count: usize,
) -> Result<(), Fail> {
    states.push(stored.renew(alloc)?)?;
    add_state(alloc, states, stored, &[])?;
    for place in 0..count {
        let request = script.requests(alloc, place, place.saturating_add(1))?;
        add_state(alloc, states, stored, request.as_slice())?;
    }
    Ok(())
}

/// Adds the rows that stand after these requests, in a stream of their own.
fn add_state(
    alloc: Global,
    states: &mut Vec<String>,
    stored: &mut Stored,
    requests: &[u8],
) -> Result<(), Fail> {
    let _told = stored.serve(alloc, requests)?;
    Ok(states.push(stored.renew(alloc)?)?)
}
