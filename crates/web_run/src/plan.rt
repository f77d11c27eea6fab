//! What the words of `fixdesk_web` ask for.
ghost use Rattle.std.specs.Prelude.{◌≡◌, map, string_bytes};
ghost use Rattle.web_run.specs.Plans.{endless, web_plan};

use fixdesk_run::{Plan, plan_of};
use http_cut::positive;

/// The greatest port.
const MAX_PORT: u64 = 65_535;

/// The most digits of a port.
const PORT_DIGITS: usize = 5;

/// How many links are served where no word says it: as many as a door hands out.
const MOST: u32 = u32::MAX;

/// The plan that the words say, which are without the program's name. None where they are neither a port nor a port
/// and a count.
pub fn web_plan(words: &[String]) -> Option<Plan>
    ensures { result ≡ web_plan (map string_bytes words.now) }
{
    match words {
        [port] => endless(positive(port.as_str().as_bytes(), PORT_DIGITS)),
        _ => plan_of(words),
    }
}

/// The plan with this port, where it is not above the greatest, and as many links as a door hands out.
fn endless(port: Option<u64>) -> Option<Plan>
    ensures { result ≡ endless port }
{
    match port {
        Some(port) if port <= MAX_PORT => Some(Plan {
            port: port as u16,
            count: MOST,
        }),
        _ => None,
    }
}
