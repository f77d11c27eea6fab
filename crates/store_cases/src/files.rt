//! The script over a file at a path, which is opened anew for each stream.
use crate::sent::{IN_TURN, Sending, Stream};
use desk_base::Str;
use desk_cases::{Answer, Case};
use desk_trials::serve;
use keeper_core::Keeper;
use keeper_sqlite::FileKeeper;
use sqlite::{FileFrom, FileStore, Start, Unknown};
use std::fs;
use std::io::ErrorKind;
use std::test::Fail;

/// A keeper over files that held at first what `S` says.
type Keeping<'r, S> = FileKeeper<'r, S, FileStore<FileFrom<S>>>;

/// What the streams of a case are answered, each by a keeper of its own over the file that those before it left,
/// without its log, whether that file has the tables that are wanted then, and what stands at its name and at that of
/// its log. Nothing stands there before but what the case lays there, or a copy of the file that it begins from, and
/// nothing is left.
pub fn told(rt: &HostRuntime, sending: Sending<'_>, answer: &mut Answer) -> Result<(), Fail> {
    let Some(path) = sending.case.text("file") else {
        return Err(Fail::new("a case does not name its file"));
    };
    remove(rt, path)?;
    lay(rt, sending.case, path)?;
    let trial = Trial { rt, sending, path };
    trial.tell(answer)?;
    remove(rt, path)
}

/// What a keeper of its own is asked: a stream, or whether it loads the tables that the case wants.
#[derive(Clone, Copy)]
enum Asked {
    Stream(Stream),
    Tables,
}

/// What is tried: the streams of a case over the file at a path.
#[derive(Drop)]
struct Trial<'t> {
    rt: &'t HostRuntime,
    sending: Sending<'t>,
    path: &'t str,
}

impl<'t> Trial<'t> {
    fn tell(&self, answer: &mut Answer) -> Result<(), Fail> {
        let log = log_of(self.rt, self.path)?;
        self.tell_with(log.as_str(), answer)
    }

    /// The same, where the log has this name.
    fn tell_with(&self, log: &str, answer: &mut Answer) -> Result<(), Fail> {
        self.lay("stands", self.path)?;
        self.lay("log stands", log)?;
        for stream in IN_TURN {
            if stream.is_in(self.sending.case) {
                self.ask(Asked::Stream(stream), log, Unknown, answer)?;
            }
        }
        if self.sending.case.part("tables").is_some() {
            self.ask(Asked::Tables, log, Unknown, answer)?;
        }
        self.add_left("left", self.path, answer)?;
        self.add_left("log left", log, answer)
    }

    /// Writes what stands in a part to a file, where the case has that part.
    fn lay(&self, part: &'static str, path: &str) -> Result<(), Fail> {
        let Some(text) = self.sending.case.text(part) else {
            return Ok(());
        };
        match fs::write(self.rt, path, text.as_bytes()) {
            Ok(()) => Ok(()),
            Err(_) => Err(Fail::new("a file of a case was not written")),
        }
    }

    /// Adds what stands in a file, where the case asks for it: `as before` where it has the bytes of the file that the
    /// case begins from, `none` where there is none.
    fn add_left(&self, part: &'static str, path: &str, answer: &mut Answer) -> Result<(), Fail> {
        if self.sending.case.part(part).is_none() {
            return Ok(());
        }
        match fs::read(self.rt, path) {
            Ok(bytes) => self.add_bytes(part, bytes.as_slice(), answer),
            Err(error) if error.kind() == ErrorKind::NotFound => answer.text(part, "none"),
            Err(_) => Err(Fail::new("a file of a case was not read")),
        }
    }

    /// Adds these bytes of a file, or that they are as before.
    fn add_bytes(&self, part: &'static str, bytes: &[u8], answer: &mut Answer) -> Result<(), Fail> {
        if self.is_as_before(bytes)? {
            answer.text(part, "as before")
        } else {
            answer.bytes(part, bytes)
        }
    }

    /// Whether these are the bytes of the file that the case begins from.
    fn is_as_before(&self, bytes: &[u8]) -> Result<bool, Fail> {
        let Some(from) = self.sending.case.text("from") else {
            return Ok(false);
        };
        match fs::read(self.rt, from) {
            Ok(before) => Ok(before.as_slice() == bytes),
            Err(_) => Err(Fail::new("a file that a case begins from was not read")),
        }
    }

    /// Asks a keeper of its own, and ends it. The log of a file from which tables were loaded, which has this name, is
    /// removed then: nothing of it is needed.
    fn ask<S: Start>(
        &self,
        asked: Asked,
        log: &str,
        start: S,
        answer: &mut Answer,
    ) -> Result<(), Fail> {
        let mut keeper = self.keeper(start)?;
        let told = self.tell_asked(asked, &mut keeper, answer);
        let ended = close(keeper);
        told?;
        match ended {
            End::Loaded => remove_one(self.rt, log),
            End::Unloaded => Ok(()),
            End::Failed => Err(Fail::new("the keeper of a case did not end")),
        }
    }

    /// Asks a keeper, and where it is sent the first stream, sends the one beside to a second keeper.
    fn tell_asked<K: Keeper>(
        &self,
        asked: Asked,
        keeper: &mut K,
        answer: &mut Answer,
    ) -> Result<(), Fail> {
        match asked {
            Asked::Tables => self
                .sending
                .script
                .add_tables(self.sending.case, keeper, answer),
            Asked::Stream(stream) => {
                self.send(stream, keeper, answer)?;
                if stream == Stream::First && Stream::Beside.is_in(self.sending.case) {
                    self.add_beside(Unknown, answer)?;
                }
                Ok(())
            }
        }
    }

    /// Sends the stream beside to a second keeper at the same path.
    fn add_beside<S: Start>(&self, start: S, answer: &mut Answer) -> Result<(), Fail> {
        let mut keeper = self.keeper(start)?;
        let sent = self.send(Stream::Beside, &mut keeper, answer);
        drop(keeper);
        sent
    }

    /// Sends a stream to a keeper.
    fn send<K: Keeper>(
        &self,
        stream: Stream,
        keeper: &mut K,
        answer: &mut Answer,
    ) -> Result<(), Fail> {
        let requests = self.sending.requests(answer.alloc(), stream)?;
        let told = serve(answer.alloc(), keeper, requests.as_slice())?;
        self.sending.add_told(stream, &told, answer)
    }

    fn keeper<S: Start>(&self, start: S) -> Result<Keeping<'t, S>, Fail> {
        let path = Str::new(self.rt.alloc(), self.path)?;
        Ok(FileKeeper::over(self.rt, path, start))
    }
}

/// How a keeper ended.
#[derive(Clone, Copy)]
enum End {
    /// It had loaded tables.
    Loaded,
    /// It had loaded none.
    Unloaded,
    /// Its files were not closed.
    Failed,
}

/// Ends a keeper.
fn close<S: Start>(keeper: Keeping<'_, S>) -> End {
    match keeper.close() {
        Ok(files) => {
            let has_loaded = files.is_some();
            drop(files);
            if has_loaded {
                End::Loaded
            } else {
                End::Unloaded
            }
        }
        Err(_) => End::Failed,
    }
}

/// Lays a copy of the file that a case begins from at a path, where the case names one.
fn lay(rt: &HostRuntime, case: &Case, path: &str) -> Result<(), Fail> {
    match case.text("from") {
        None => Ok(()),
        Some(from) => match fs::copy(rt, from, path) {
            Ok(_) => Ok(()),
            Err(_) => Err(Fail::new("a file that a case begins from was not copied")),
        },
    }
}

/// The name of the log of a file.
fn log_of(rt: &HostRuntime, path: &str) -> Result<String, Fail> {
    Ok(format!(in rt.alloc(); "{path}-wal")?)
}

/// Removes the file at a path and its log, where they are there.
fn remove(rt: &HostRuntime, path: &str) -> Result<(), Fail> {
    let log = log_of(rt, path)?;
    remove_one(rt, path)?;
    remove_one(rt, log.as_str())
}

fn remove_one(rt: &HostRuntime, path: &str) -> Result<(), Fail> {
    match fs::remove_file(rt, path) {
        Ok(()) => Ok(()),
        Err(error) if error.kind() == ErrorKind::NotFound => Ok(()),
        Err(_) => Err(Fail::new("a file of a case was not removed")),
    }
}
