//! The line that is due after the last link. Room for it is taken before the first.
ghost use Rattle.std.specs.Prelude.{◌≡◌, ◌+◌, ◌≤◌, ◌++◌, length, vec_capacity, codes, decimal, IfOk};
ghost use Rattle.fixdesk_run.specs.Serve.{served_line};

use desk_base::NoMemory;
use itoa::Buffer;
use std::alloc::Global;

/// The most bytes of the end of the line: ten digits, and LF.
const END: usize = 11;

/// The front of the line after so many links, with room for its end.
pub fn begin_line(alloc: Global, count: u32) -> Result<Vec<u8>, NoMemory>
    ensures front { IfOk result
        (λ line. line.items ≡ codes "served " ++ decimal count ++ codes " early ") }
    ensures room { IfOk result (λ line. length line.items + END ≤ vec_capacity line) }
{
    let mut digits = Buffer::new();
    let mut line = Vec::new(alloc);
    line.extend_from_slice(b"served ")?;
    line.extend_from_slice(digits.format(count).as_bytes())?;
    line.extend_from_slice(b" early ")?;
    line.reserve(END)?;
    Ok(line)
}

/// The whole line, where so many of the links ended early. It takes no memory.
pub fn end_line(mut line: Vec<u8>, early: u32) -> Vec<u8>
    requires { length line.items + END ≤ vec_capacity line }
    ensures { result.items ≡ line.items ++ decimal early ++ codes "\n" }
{
    let mut digits = Buffer::new();
    line.extend_from_slice(digits.format(early).as_bytes())
        .unwrap();
    line.push(b'\n').unwrap();
    line
}
