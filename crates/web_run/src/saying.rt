//! What is said on the output before links are awaited.
ghost use Rattle.std.specs.Prelude.{◌≡◌, IfOk};
ghost use Rattle.web_run.specs.Serving.{listens_line};

use desk_base::NoMemory;
use itoa::Buffer;
use std::alloc::Global;

/// The line that says at which port links are awaited.
pub fn listens_line(alloc: Global, port: u16) -> Result<Vec<u8>, NoMemory>
    ensures { IfOk result (λ line. line.items ≡ listens_line port) }
{
    let mut digits = Buffer::new();
    let mut line = Vec::new(alloc);
    line.extend_from_slice(b"fixdesk_web listens at http://127.0.0.1:")?;
    line.extend_from_slice(digits.format(port).as_bytes())?;
    line.extend_from_slice(b"/\n")?;
    Ok(line)
}
