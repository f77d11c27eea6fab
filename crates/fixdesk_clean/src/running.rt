//! The run over the machine's words, files and streams.
ghost use Rattle.clean_run.specs.Prepared.{IsPrepared};

use crate::files::StdFiles;
use crate::made_file::MadeFile;
use crate::watched::Watched;
use clean_run::{Ended, Job, Status, Task, show, task_of};
use desk_base::{List, StdSink, StdSource};
use desk_links::DropSink;
use sheet_filter::Outputs;
use std::alloc::AllocError;
use std::env;
use std::io::ErrorKind;

/// Does what the program's words ask for.
pub fn run(rt: &HostRuntime) -> Ended {
    match run_words(rt) {
        Ok(ended) => ended,
        Err(ended) => ended,
    }
}

fn run_words(rt: &HostRuntime) -> Result<Ended, Ended> {
    let alloc = rt.alloc();
    let owned = words(rt)?;
    let mut words = List::new(alloc);
    'words: for word in owned.as_slice() {
        words.push(word.as_str())?;
    }
    match task_of(alloc, &StdFiles { rt }, words.as_slice())? {
        Task::Show(text) => Ok(show(alloc, text.as_str(), &mut StdSink::new(rt.stdout()))),
        Task::Clean(job) => match job.changes {
            Some(path) => Ok(clean_told(rt, &job, path)?),
            None => Ok(clean_alone(rt, &job)),
        },
    }
}

/// The words, without the program's name.
fn words(rt: &HostRuntime) -> Result<Vec<String>, Ended> {
    match env::args(rt) {
        Ok(words) => Ok(words.skip(1).collect(rt.alloc())?),
        Err(error) if error.kind() == ErrorKind::OutOfMemory => Err(Ended::no_memory()),
        Err(_) => {
            let why = String::from_str(rt.alloc(), "the words are not UTF-8")?;
            Err(Ended::because(Status::Words, why))
        }
    }
}

/// Cleans the sheet on standard input, and writes the sheets of changes too.
fn clean_told(rt: &HostRuntime, job: &Job<'_>, path: &str) -> Result<Ended, AllocError>
    requires { IsPrepared job.now.prepared }
{
    let alloc = rt.alloc();
    let mut outputs = Outputs {
        clean: StdSink::new(rt.stdout()),
        changes: MadeFile::at(rt, String::from_str(alloc, path)?),
        conflicts: MadeFile::at(rt, format!(in alloc; "{path}.conflicts")?),
        dissents: MadeFile::at(rt, format!(in alloc; "{path}.dissents")?),
    };
    let mut source = Watched::over(rt, StdSource::new(rt.stdin()));
    Ok(job.clean(alloc, &mut source, &mut outputs))
}

/// Cleans it alone.
fn clean_alone(rt: &HostRuntime, job: &Job<'_>) -> Ended
    requires { IsPrepared job.now.prepared }
{
    let mut outputs = Outputs {
        clean: StdSink::new(rt.stdout()),
        changes: DropSink,
        conflicts: DropSink,
        dissents: DropSink,
    };
    let mut source = Watched::over(rt, StdSource::new(rt.stdin()));
    job.clean(rt.alloc(), &mut source, &mut outputs)
}
