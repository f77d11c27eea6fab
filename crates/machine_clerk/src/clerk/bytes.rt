//! The bytes of a clerk's texts, where sessions or records come to them.
ghost use Rattle.std.specs.Prelude.{◌≡◌, ◌+◌, ◌-◌, ◌*◌, ◌<◌, ◌≤◌, IfSome, length, slice_get};
ghost use Rattle.desk_base.specs.declared.limits.TheConstants.{MAX_ATTRIBUTES, MAX_TEXT};
ghost use Rattle.desk_words.specs.declared.limit.Which.TheVariants as which;
ghost use Rattle.desk_valid.specs.Tallies.{bytes_in, text_bytes};
ghost use Rattle.machine_core.specs.Clerk.Confirm.{bytes_with};
ghost use Rattle.machine_core.specs.Limits.{within};
ghost use Rattle.machine_core.specs.Outcomes.{Finds, WantsNone};

use desk_base::Text;
use desk_words::{SessionRow, Which};
use machine_core::{Own, Stop, within};

/// The bytes of some texts.
pub(crate) fn bytes_in(texts: &[Text]) -> u64
    requires { length texts.now < 65536 }
    ensures bytes { result ≡ bytes_in texts.now }
    ensures few { result ≤ length texts.now * MAX_TEXT }
{
    let mut bytes = 0;
    'texts: for text in texts {
        bytes += text.as_str().len() as u64;
    }
    bytes
}

/// So many bytes come to a clerk's texts, and no more stand then than may. A sum that is too great to be counted is
/// more than may. No want of memory is answered.
pub(crate) fn within_bytes(own: &Own, come: u64) -> Result<(), Stop>
    ensures finds { Finds result (within which.Bytes (text_bytes own.now.sessions own.now.records + come)) }
    ensures memory { WantsNone result }
{
    within(Which::Bytes, own.bytes().saturating_add(come))
}

/// A session comes in place of the one with this number, counted from 1, and no more bytes of a clerk's texts stand
/// then than may. No want of memory is answered.
pub(crate) fn within_replaced(own: &Own, number: u32, session: &SessionRow) -> Result<(), Stop>
    requires counted { 1 ≤ number }
    requires within { number ≤ length own.now.sessions }
    requires narrow { IfSome (slice_get own.now.sessions (number - 1))
        (λ old. length old.typed ≤ MAX_ATTRIBUTES) }
    requires few { length session.now.typed ≤ MAX_ATTRIBUTES }
    ensures finds { Finds result (within which.Bytes (bytes_with own.now number session.now)) }
    ensures memory { WantsNone result }
{
    let old = &own.sessions()[number as usize - 1];
    let gone = bytes_in(old.typed.as_slice());
    let come = bytes_in(session.typed.as_slice());
    within_exchanged(own, gone, come)
}

/// So many bytes go from a clerk's texts and so many come to them, and no more stand then than may. No want of
/// memory is answered.
fn within_exchanged(own: &Own, gone: u64, come: u64) -> Result<(), Stop>
    requires { gone ≤ text_bytes own.now.sessions own.now.records }
    ensures finds { Finds result (within which.Bytes (text_bytes own.now.sessions own.now.records - gone + come)) }
    ensures memory { WantsNone result }
{
    within(Which::Bytes, (own.bytes() - gone).saturating_add(come))
}
