//! The sinks of the sheets.
ghost use Rattle.std.specs.Prelude.{IsOk, OnErr, OnOk};
ghost use Rattle.sheet_clean.specs.Sheets.{Sheets, joined};
ghost use Rattle.sheet_clean.specs.Writing.{sheets_seen};
ghost use Rattle.sheet_filter.specs.Outputs.{ArePartly, AreWritten, HaveRoom, Later, SomeSinkFailed};
ghost use Rattle.sheet_filter.specs.Outputs.{sinks_seen};

use desk_base::{Failed, Sink, write_all};
use sheet_clean::SheetTexts;

/// A sink for the clean sheet, and one for each sheet of changes.
#[derive(Debug, Drop)]
pub struct Outputs<W, C> {
    pub clean: W,
    pub changes: C,
    pub conflicts: C,
    pub dissents: C,
}

impl<W: Sink, C: Sink> Outputs<W, C> {
    /// Writes each text to its sink, that of the clean sheet last.
    pub(crate) fn write(&mut self, texts: &SheetTexts) -> Result<(), Failed>
        ensures written { let seen = sinks_seen W.written W.write_faults C.written C.write_faults in
            OnOk result (AreWritten (seen self.old) (seen self.new) (sheets_seen texts.now)) }
        ensures part { let seen = sinks_seen W.written W.write_faults C.written C.write_faults in
            OnErr result (ArePartly (seen self.old) (seen self.new) (sheets_seen texts.now)) }
        ensures cause { let seen = sinks_seen W.written W.write_faults C.written C.write_faults in
            OnErr result (SomeSinkFailed (seen self.old) (seen self.new)) }
        ensures later { let seen = sinks_seen W.written W.write_faults C.written C.write_faults in
            Later (seen self.old) (seen self.new) }
        ensures room { (later : Sheets) → HaveRoom W.takes C.takes self.old (joined (sheets_seen texts.now) later)
            → IsOk result × HaveRoom W.takes C.takes self.new later }
    {
        write_all(&mut self.changes, texts.changes.as_slice())?;
        write_all(&mut self.conflicts, texts.conflicts.as_slice())?;
        write_all(&mut self.dissents, texts.dissents.as_slice())?;
        write_all(&mut self.clean, texts.clean.as_slice())?;
        Ok(())
    }
}
