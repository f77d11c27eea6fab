//! The top call of the program `fixdesk_restore`.
ghost use Rattle.std.specs.Prelude.{◌≤◌, ℕ, List, map, string_bytes};
ghost use Rattle.desk_words.specs.Tables.{rows_of};
ghost use Rattle.desk_restore.specs.Made.{IsMade};
ghost use Rattle.fixdesk_run.specs.World.{world};
ghost use Rattle.restore_run.specs.Dumped.{IsDumpOf};
ghost use Rattle.restore_run.specs.Restoring.{AreSteady, EndsText, IsFaultless, IsUnfailing, LeavesRestored};
ghost use Rattle.restore_run.specs.Restoring.{TakesDamage, TakesText, scene};

use crate::ended::RestoreEnd;
use crate::keeping::keep;
use crate::taking::text_of;
use crate::telling::{tell_damage, tell_usage};
use desk_base::{Both, Sink, Source};
use desk_restore::{RestoreFault, Restored, restore};
use desk_valid::{Bad, valid};
use keeper_core::Keeper;
use once_run::InputFault;
use std::alloc::Global;

/// Makes the desk whose dump the link has left, where the keeper has a new desk, and says how that ended
/// (docs/formats.md, *Statuses of `fixdesk_restore`*).
///
/// The whole dump is read and tested first: a text that is no dump, and one of damaged tables, of which the line is
/// written that names the first damaged row, are refused before the keeper is called. Then the keeper loads its tables.
/// Where they are those of a new desk, all rows of the dump are put in one commit; any other desk stays as it is. There
/// are no words for this program: any are answered with the usage line, and nothing is read.
pub fn restore_desk<K: Keeper, S: Source, W: Sink>(
    alloc: Global,
    words: &[String],
    keeper: &mut K,
    link: &mut Both<S, W>,
) -> RestoreEnd
    ensures leaves { let world = world S.Source W.Sink K.Keeper in
        LeavesRestored (K.holds keeper.old) (map string_bytes words.now) (world link.old keeper.old)
        (world link.new keeper.new) result }
    ensures complete { let words = map string_bytes words.now in
        AreSteady (S.is_steady link.old.source) (K.is_steady keeper.old) words
        → TakesText (W.takes link.old.sink) words (S.left link.old.source) → IsFaultless words result }
{
    if !words.is_empty() {
        return tell_usage(&mut link.sink);
    }
    let text = match text_of(alloc, &mut link.source) {
        Ok(text) => text,
        Err(InputFault::Failed) => return RestoreEnd::ReadFault,
        Err(InputFault::NoMemory) => return RestoreEnd::NoMemory,
    };
    restore_text(alloc, text.as_slice(), keeper, &mut link.sink)
}

/// The same with the text that was read.
fn restore_text<K: Keeper, W: Sink>(
    alloc: Global,
    text: &[u8],
    keeper: &mut K,
    out: &mut W,
) -> RestoreEnd
    ensures ended { let scene = scene W.Sink K.Keeper in
        EndsText (K.holds keeper.old) text.now (scene out.old keeper.old) (scene out.new keeper.new) result }
    ensures later { W.write_faults out.old ≤ W.write_faults out.new }
    ensures complete { K.is_steady keeper.old → TakesDamage (W.takes out.old) text.now → IsUnfailing result }
{
    match restore(alloc, text) {
        Ok(restored) => restore_rows(alloc, &restored, keeper, out),
        Err(RestoreFault::Refused { line }) => RestoreEnd::Refused(line),
        Err(RestoreFault::NoMemory) => RestoreEnd::NoMemory,
    }
}

/// The same with the tables that were restored.
fn restore_rows<K: Keeper, W: Sink>(
    alloc: Global,
    restored: &Restored,
    keeper: &mut K,
    out: &mut W,
) -> RestoreEnd
    requires { IsMade restored.now }
    ensures ended { (text : List ℕ) → IsDumpOf text (rows_of restored.now.tables)
        → let scene = scene W.Sink K.Keeper in
        EndsText (K.holds keeper.old) text (scene out.old keeper.old) (scene out.new keeper.new) result }
    ensures later { W.write_faults out.old ≤ W.write_faults out.new }
    ensures complete { (text : List ℕ) → IsDumpOf text (rows_of restored.now.tables)
        → K.is_steady keeper.old → TakesDamage (W.takes out.old) text → IsUnfailing result }
{
    match valid(alloc, &restored.tables) {
        Ok(()) => keep(keeper, &restored.changes),
        Err(Bad::Damaged(damage)) => tell_damage(alloc, damage, out),
        Err(Bad::NoMemory) => RestoreEnd::NoMemory,
    }
}
