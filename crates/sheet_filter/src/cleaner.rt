//! Taking the records of a sheet, and writing what they give.
ghost use Rattle.std.specs.Prelude.{◌≡◌, ◌++◌, ◌∷◌, [], ℕ, List as ListOf, IfErr, IfOk, IsErrOf, None, OnOk};
ghost use Rattle.csv.specs.Records.{fields_of};
ghost use Rattle.desk_base.specs.Texts.{bytes_of};
ghost use Rattle.sheet_blocks.specs.Sheets.{sheet_records};
ghost use Rattle.sheet_clean.specs.Header.{header_fault};
ghost use Rattle.sheet_clean.specs.Layouts.{IsLayout};
ghost use Rattle.sheet_clean.specs.Sheets.{Sheets, heads};
ghost use Rattle.sheet_clean.specs.Writing.{HaveWritten};
ghost use Rattle.sheet_clean.specs.declared.fault.SheetFault.{SheetFault as FaultOf};
ghost use Rattle.sheet_clean.specs.declared.setting.Setting.{Setting as SettingOf};
ghost use Rattle.sheet_filter.specs.Cleaning.{CleansBy, Drafting, DraftsNoMore, DraftsOn, Flushes, FlushesNoMore};
ghost use Rattle.sheet_filter.specs.Cleaning.{IsReady, StandsNoMore, StandsOn, StopsHeader, StopsRecord, StopsRow};
ghost use Rattle.sheet_filter.specs.Cleaning.{StopsWriting, moment_seen};
ghost use Rattle.sheet_filter.specs.Outputs.{AreWritten, HaveRoom, Later, SinkStates, TakeRest, sinks_seen};

use crate::cleaning::Cleaning;
use crate::outputs::Outputs;
use crate::stop::Stop;
use csv::ByteRecord;
use desk_base::Sink;
use fix_model::Book;
use master_rows::SheetRecords;
use sheet_clean::{Drafts, Layout, Setting, fields_of, heads, layout_of, row_fault, write_decided};
use std::alloc::Global;

/// What a sheet is cleaned by.
#[derive(Drop)]
pub(crate) struct Cleaner<'a, B> {
    pub(crate) alloc: Global,
    pub(crate) setting: &'a Setting,
    pub(crate) book: &'a B,
}

impl<'a, B: Book<()>> Cleaner<'a, B> {
    /// Takes a block of whole records, and writes what they give to the sheets.
    pub(crate) fn take<W: Sink, C: Sink>(
        &self,
        block: &[u8],
        cleaning: &mut Cleaning,
        outputs: &mut Outputs<W, C>,
    ) -> Result<(), Stop>
        requires { IsReady (B.kit self.now.book.now) self.now.setting.now cleaning.old }
        ensures ready { IsReady (B.kit self.now.book.now) self.now.setting.now cleaning.new }
        ensures taken { let at = moment_seen W.written W.write_faults C.written C.write_faults in
            OnOk result (StandsOn W.takes C.takes (B.kit self.now.book.now) self.now.setting.now
            (at cleaning.old outputs.old) (at cleaning.new outputs.new)
            (sheet_records self.now.setting.now.delimiter block.now)) }
        ensures stopped { let at = moment_seen W.written W.write_faults C.written C.write_faults in
            IfErr result (StandsNoMore W.takes C.takes (B.kit self.now.book.now) self.now.setting.now
            (at cleaning.old outputs.old) (at cleaning.new outputs.new)
            (sheet_records self.now.setting.now.delimiter block.now)) }
        ensures later { let seen = sinks_seen W.written W.write_faults C.written C.write_faults in
            Later (seen outputs.old) (seen outputs.new) }
    {
        let mut drafts = Drafts::new(self.alloc, self.setting);
        match self.draft(block, cleaning, &mut drafts, outputs) {
            Ok(()) => self.flush(cleaning, drafts, outputs),
            Err(Stop::Refused(fault)) => {
                self.flush(cleaning, drafts, outputs)?;
                Err(Stop::Refused(fault))
            }
            Err(Stop::Failed) => Err(Stop::Failed),
            Err(Stop::NoMemory) => Err(Stop::NoMemory),
        }
    }

    /// Writes what is drafted of the rows under the header, where there is one.
    fn flush<W: Sink, C: Sink>(
        &self,
        cleaning: &Cleaning,
        drafts: Drafts,
        outputs: &mut Outputs<W, C>,
    ) -> Result<(), Stop>
        ensures written { let at = moment_seen W.written W.write_faults C.written C.write_faults in
            OnOk result (Flushes W.takes C.takes (B.kit self.now.book.now) self.now.setting.now
            (at cleaning.now outputs.old) (at cleaning.now outputs.new) drafts) }
        ensures stopped { let at = moment_seen W.written W.write_faults C.written C.write_faults in
            IfErr result (FlushesNoMore W.takes C.takes (B.kit self.now.book.now) self.now.setting.now
            (at cleaning.now outputs.old) (at cleaning.now outputs.new) drafts) }
        ensures later { let seen = sinks_seen W.written W.write_faults C.written C.write_faults in
            Later (seen outputs.old) (seen outputs.new) }
    {
        if cleaning.layout.is_none() {
            return Ok(());
        }
        write_drafts(drafts, outputs)
    }

    /// Takes the records of a block: writes the headers, where the first is the header, and drafts what rows give.
    fn draft<W: Sink, C: Sink>(
        &self,
        block: &[u8],
        cleaning: &mut Cleaning,
        drafts: &mut Drafts,
        outputs: &mut Outputs<W, C>,
    ) -> Result<(), Stop>
        requires { IsReady (B.kit self.now.book.now) self.now.setting.now cleaning.old }
        ensures ready { IsReady (B.kit self.now.book.now) self.now.setting.now cleaning.new }
        ensures drafted { let at = moment_seen W.written W.write_faults C.written C.write_faults in
            OnOk result (DraftsOn W.takes C.takes (B.kit self.now.book.now) self.now.setting.now
            (at cleaning.old outputs.old) (at cleaning.new outputs.new) drafts.old drafts.new
            (sheet_records self.now.setting.now.delimiter block.now)) }
        ensures stopped { let at = moment_seen W.written W.write_faults C.written C.write_faults in
            IfErr result (DraftsNoMore W.takes C.takes (B.kit self.now.book.now) self.now.setting.now
            (at cleaning.old outputs.old) (at cleaning.new outputs.new) drafts.old drafts.new
            (sheet_records self.now.setting.now.delimiter block.now)) }
        ensures later { let seen = sinks_seen W.written W.write_faults C.written C.write_faults in
            Later (seen outputs.old) (seen outputs.new) }
    {
        let mut records = SheetRecords::of(self.alloc, self.setting.delimiter, block);
        let mut next = ByteRecord::new(self.alloc);
        'records: while records.next_into(&mut next)? {
            self.take_record(&next, cleaning, drafts, outputs)?;
        }
        Ok(())
    }

    /// Takes the next record: the header, or a row under it.
    fn take_record<W: Sink, C: Sink>(
        &self,
        next: &ByteRecord,
        cleaning: &mut Cleaning,
        drafts: &mut Drafts,
        outputs: &mut Outputs<W, C>,
    ) -> Result<(), Stop>
        requires { IsReady (B.kit self.now.book.now) self.now.setting.now cleaning.old }
        ensures ready { IsReady (B.kit self.now.book.now) self.now.setting.now cleaning.new }
        ensures drafted { let at = moment_seen W.written W.write_faults C.written C.write_faults in
            OnOk result (DraftsOn W.takes C.takes (B.kit self.now.book.now) self.now.setting.now
            (at cleaning.old outputs.old) (at cleaning.new outputs.new) drafts.old drafts.new
            (fields_of next.now ∷ [])) }
        ensures stopped { let seen = sinks_seen W.written W.write_faults C.written C.write_faults in
            IfErr result (StopsRecord self.now.setting.now (HaveRoom W.takes C.takes outputs.old) cleaning.old
            cleaning.new drafts.old drafts.new (seen outputs.old) (seen outputs.new) (fields_of next.now)) }
        ensures kept { (fault : FaultOf) → IsErrOf result (Stop.Refused fault) → outputs.new ≡ outputs.old }
        ensures later { let seen = sinks_seen W.written W.write_faults C.written C.write_faults in
            Later (seen outputs.old) (seen outputs.new) }
    {
        let cells = fields_of(self.alloc, next)?;
        if cleaning.layout.is_none() {
            cleaning.layout = Some(self.take_header(cells.as_slice(), outputs)?);
            return Ok(());
        }
        self.take_row(cells.as_slice(), cleaning, drafts)
    }

    /// Writes the headers of the sheets, where the sheet has this header, and answers its layout.
    fn take_header<W: Sink, C: Sink>(
        &self,
        fields: &[&[u8]],
        outputs: &mut Outputs<W, C>,
    ) -> Result<Layout, Stop>
        requires { CleansBy (B.kit self.now.book.now) self.now.setting.now }
        ensures laid { IfOk result (IsLayout self.now.setting.now) }
        ensures header { IfOk result (λ layout. layout.header ≡ bytes_of fields.now) }
        ensures fits { OnOk result (header_fault self.now.setting.now (bytes_of fields.now) ≡ None) }
        ensures written { let seen = sinks_seen W.written W.write_faults C.written C.write_faults in
            OnOk result (AreWritten (seen outputs.old) (seen outputs.new)
            (heads self.now.setting.now (bytes_of fields.now))) }
        ensures room { OnOk result (TakeRest W.takes C.takes outputs.old outputs.new
            (heads self.now.setting.now (bytes_of fields.now))) }
        ensures stopped { let seen = sinks_seen W.written W.write_faults C.written C.write_faults in
            IfErr result (StopsHeader self.now.setting.now (HaveRoom W.takes C.takes outputs.old) (seen outputs.old)
            (seen outputs.new) (bytes_of fields.now)) }
        ensures kept { (fault : FaultOf) → IsErrOf result (Stop.Refused fault) → outputs.new ≡ outputs.old }
        ensures later { let seen = sinks_seen W.written W.write_faults C.written C.write_faults in
            Later (seen outputs.old) (seen outputs.new) }
    {
        let layout = layout_of(self.alloc, self.setting, fields)?;
        let texts = heads(self.alloc, self.setting, layout.header.as_slice())?;
        outputs.write(&texts)?;
        Ok(layout)
    }

    /// Takes a row.
    fn take_row(
        &self,
        cells: &[&[u8]],
        cleaning: &mut Cleaning,
        drafts: &mut Drafts,
    ) -> Result<(), Stop>
        requires { IsReady (B.kit self.now.book.now) self.now.setting.now cleaning.old }
        ensures ready { IsReady (B.kit self.now.book.now) self.now.setting.now cleaning.new }
        ensures drafted { OnOk result ((old now : SinkStates) (records : ListOf (ListOf (ListOf ℕ))) (sheets : Sheets)
            → Drafting (B.kit self.now.book.now) self.now.setting.now cleaning.old drafts.old old now records sheets
            → Drafting (B.kit self.now.book.now) self.now.setting.now cleaning.new drafts.new old now
            (records ++ bytes_of cells.now ∷ []) sheets) }
        ensures stopped { IfErr result (StopsRow self.now.setting.now cleaning.old cleaning.new drafts.old drafts.new
            (bytes_of cells.now)) }
    {
        let Some(layout) = &cleaning.layout else {
            return Err(Stop::NoMemory);
        };
        let Some(number) = cleaning.summary.rows.checked_add(1) else {
            return Err(Stop::NoMemory);
        };
        if let Some(fault) = row_fault(self.setting, layout, number, cells) {
            return Err(Stop::Refused(fault));
        }
        let counted = write_decided(
            self.alloc,
            self.setting,
            layout,
            self.book,
            &mut cleaning.work,
            number,
            cells,
            drafts,
        )?;
        match cleaning.summary.plus(counted) {
            Some(summary) => {
                cleaning.summary = summary;
                Ok(())
            }
            None => Err(Stop::NoMemory),
        }
    }
}

/// Writes what is drafted to the sheets.
fn write_drafts<W: Sink, C: Sink>(drafts: Drafts, outputs: &mut Outputs<W, C>) -> Result<(), Stop>
    ensures written { let seen = sinks_seen W.written W.write_faults C.written C.write_faults in
        OnOk result ((setting : SettingOf) (sheets : Sheets) → HaveWritten setting drafts sheets
        → AreWritten (seen outputs.old) (seen outputs.new) sheets) }
    ensures room { OnOk result ((setting : SettingOf) (sheets : Sheets) → HaveWritten setting drafts sheets
        → TakeRest W.takes C.takes outputs.old outputs.new sheets) }
    ensures stopped { let seen = sinks_seen W.written W.write_faults C.written C.write_faults in
        IfErr result (λ stop. (setting : SettingOf) (sheets : Sheets) → HaveWritten setting drafts sheets
        → StopsWriting (HaveRoom W.takes C.takes outputs.old) (seen outputs.old) (seen outputs.new) sheets stop) }
    ensures later { let seen = sinks_seen W.written W.write_faults C.written C.write_faults in
        Later (seen outputs.old) (seen outputs.new) }
{
    let texts = drafts.finish()?;
    outputs.write(&texts)?;
    Ok(())
}
