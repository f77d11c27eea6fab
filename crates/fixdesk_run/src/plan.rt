//! What the words of `fixdeskd` ask for.
ghost use Rattle.std.specs.Prelude.{◌≡◌, map, string_bytes};
ghost use Rattle.fixdesk_run.specs.Plan.{plan_of, planned};

use http_cut::positive;

/// The greatest port.
const MAX_PORT: u64 = 65_535;

/// The most digits of a port.
const PORT_DIGITS: usize = 5;

/// The most links that a word may say.
pub const MAX_COUNT: u32 = 1_000_000;

/// The most digits of such a word.
const COUNT_DIGITS: usize = 7;

/// Which port a door is bound to, and how many links are served.
#[derive(Clone, Copy, Debug, PartialEq, Eq)]
pub struct Plan {
    pub port: u16,
    pub count: u32,
}

/// The plan that the words say, which are without the program's name. None where they are no port and count.
pub fn plan_of(words: &[String]) -> Option<Plan>
    ensures { result ≡ plan_of (map string_bytes words.now) }
{
    match words {
        [port, count] => planned(
            positive(port.as_str().as_bytes(), PORT_DIGITS),
            positive(count.as_str().as_bytes(), COUNT_DIGITS),
        ),
        _ => None,
    }
}

/// The plan with this port and this count, where neither is above its greatest.
fn planned(port: Option<u64>, count: Option<u64>) -> Option<Plan>
    ensures { result ≡ planned port count }
{
    match (port, count) {
        (Some(port), Some(count)) if port <= MAX_PORT && count <= u64::from(MAX_COUNT) => {
            Some(Plan {
                port: port as u16,
                count: count as u32,
            })
        }
        _ => None,
    }
}
