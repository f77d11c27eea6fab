//! A port that is free for a door of a test, and what its links give.
ghost use Rattle.std.specs.Prelude.{◌≡◌, ◌+◌, ◌<◌, ◌^◌, IfSome, Some};
ghost use Rattle.desk_links.specs.Doors.{MayAccept, one_more};

use desk_base::{Failed, Source, write_all};
use desk_links::Listener;

/// What the source of a link gave by two reads, and whether its sink took the response.
#[derive(Clone, Copy, Debug, PartialEq, Eq)]
pub(crate) struct Asked {
    pub(crate) bytes: [u8; 8],
    pub(crate) first: Result<usize, Failed>,
    pub(crate) second: Result<usize, Failed>,
    pub(crate) is_answered: bool,
}

/// Binds the door to the first port that is free of a hundred from this one on, since another program may have one.
pub(crate) fn bind_some<D: Listener>(door: &mut D, first: u16) -> Option<u16>
    requires idle { (D.seen door.old).live ≡ 0 }
    requires ports { first + 100 < 2 ^ 16 }
    ensures { IfSome result (λ _. ((D.seen door.new).live ≡ 0) × ((D.seen door.new).accepted ≡ Some 0)) }
{
    'ports: for port in first..first + 100 {
        if door.bind(port).is_ok() {
            return Some(port);
        }
    }
    None
}

/// Hands out the next link, reads it twice, writes to it and closes it. None where no link is handed out.
pub(crate) fn answer_next<D: Listener>(door: &mut D, response: &[u8]) -> Option<Asked>
    requires idle { (D.seen door.old).live ≡ 0 }
    requires bound { MayAccept (D.seen door.old).accepted }
    ensures idle { (D.seen door.new).live ≡ 0 }
    ensures counted { IfSome result (λ _. (D.seen door.new).accepted ≡ one_more (D.seen door.old).accepted) }
{
    let Ok(mut link) = door.accept() else {
        return None;
    };
    let mut bytes = [0u8; 8];
    let first = link.source.read(&mut bytes);
    let second = link.source.read(&mut [0u8; 8]);
    let is_answered = write_all(&mut link.sink, response).is_ok();
    door.close(link);
    Some(Asked {
        bytes,
        first,
        second,
        is_answered,
    })
}
