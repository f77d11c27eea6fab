//! Devices of which each call fails in turn.
ghost use Rattle.clean_run.specs.Prepared.{IsPrepared};

use crate::devices::{Device, Plan};
use crate::runs::{cleaned, words};
use crate::told::Told;
use clean_run::{Job, MemFiles, Status, Task, task_of};
use desk_cases::{Answer, Case};
use std::test::Fail;

const SINKS: [Device; 4] = [
    Device::Changes,
    Device::Conflicts,
    Device::Dissents,
    Device::Clean,
];

/// What each run told in which one read fails: the first, the second, and so on, up to a run with fewer reads, in which
/// none fails; told once where it is the same. Then how many runs there were in which one write to a sink fails: each
/// call moves one byte, so that one fails at each byte. A run of these that does not end with status 3, or leaves
/// something else than a beginning of each sheet, or more or less than the bytes before the one that fails, is a part
/// besides.
pub fn each_call_fails(case: &Case, files: &MemFiles, answer: &mut Answer) -> Result<(), Fail> {
    let words = words(answer.alloc(), case)?;
    let Ok(Task::Clean(job)) = task_of(answer.alloc(), files, words.as_slice()) else {
        return Err(Fail::new("a case asks for no sheet to be cleaned"));
    };
    let told = add_calls(case, &job, answer);
    drop(job);
    told
}

/// What is told of a sheet, as each of these calls fails.
fn add_calls(case: &Case, job: &Job<'_>, answer: &mut Answer) -> Result<(), Fail>
    requires { IsPrepared job.now.prepared }
{
    add_reads(case, job, answer)?;
    let whole = cleaned(answer.alloc(), case, job, &plan(1, None))?;
    for sink in &SINKS {
        add_writes(case, job, *sink, &whole, answer)?;
    }
    Ok(())
}

fn plan(cut: usize, fails: Option<(Device, u64)>) -> Plan {
    Plan { cut, fails }
}

fn add_reads(case: &Case, job: &Job<'_>, answer: &mut Answer) -> Result<(), Fail>
    requires { IsPrepared job.now.prepared }
{
    for read in 1..u64::MAX {
        let fails = Some((Device::Source, read));
        let told = cleaned(answer.alloc(), case, job, &plan(case.cut(), fails))?;
        told.add(answer)?;
        if told.ended.status != Status::ReadFault {
            break;
        }
    }
    Ok(())
}

fn add_writes(
    case: &Case,
    job: &Job<'_>,
    sink: Device,
    whole: &Told,
    answer: &mut Answer,
) -> Result<(), Fail>
    requires { IsPrepared job.now.prepared }
{
    let due = whole.written(sink);
    for (place, _) in due.iter().enumerate() {
        let fails = Some((sink, (place as u64).saturating_add(1)));
        let told = cleaned(answer.alloc(), case, job, &plan(1, fails))?;
        if told.ended.status != Status::WriteFault
            || told.written(sink) != &due[..place]
            || !is_part(&told, whole)
        {
            told.add(answer)?;
        }
    }
    let text = format!(in answer.alloc(); "{sink:?} {}", due.len())?;
    answer.text("writes", text.as_str())
}

/// Whether each sheet is a beginning of what it is in the other.
fn is_part(told: &Told, whole: &Told) -> bool {
    SINKS.iter().all(|sink| whole.written(*sink).starts_with(told.written(*sink)))
}
