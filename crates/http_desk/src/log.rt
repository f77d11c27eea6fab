//! What tells of the requests that are answered.
ghost use Rattle.std.specs.Prelude.{◌+◌, ◌≤◌, ℕ, List, [], Option, None, length};
ghost use Rattle.desk_base.specs.declared.limits.TheConstants.{MAX_HEAD};
ghost use Rattle.http_desk.specs.Logs.{line_of};
ghost use Rattle.http_desk.specs.Streams.{IfShown};

/// A log of the requests that are answered, one line at a time.
pub trait Log {
    /// The line, where it is shown.
    ghost line: { Self → Option (List ℕ) };

    /// Forgets the line.
    fn clear(&mut self)
        ensures { IfShown (line self.new) [] };

    /// Tells of a request with this method and this target, which was answered with this text. Its line is the method,
    /// the target and the number of the status in the text.
    fn tell(&mut self, method: &[u8], target: &[u8], text: &[u8])
        requires head { length method.now + length target.now ≤ MAX_HEAD }
        requires response { 12 ≤ length text.now }
        ensures { IfShown (line self.new) (line_of method.now target.now text.now) };
}

/// No log, which shows no line.
#[derive(Debug, Drop)]
pub struct NoLog;

impl Log for NoLog {
    ghost line = { λ _. None };

    fn clear(&mut self) {}

    fn tell(&mut self, _method: &[u8], _target: &[u8], _text: &[u8]) {}
}
