//! The standard input and output of a program, as a link.
ghost use Rattle.std.specs.Prelude.{◌≡◌};

use desk_base::{Both, StdSink, StdSource};
use std::io::{Stdin, Stdout};

/// The link of a program's standard input and standard output, of which no call has failed yet.
pub fn std_link(rt: &HostRuntime) -> Both<StdSource<Stdin>, StdSink<Stdout>>
    ensures { (result.source.faults ≡ 0) × (result.sink.faults ≡ 0) }
{
    Both {
        source: StdSource::new(rt.stdin()),
        sink: StdSink::new(rt.stdout()),
    }
}
