//! What a run told.
use crate::devices::Device;
use clean_run::{Ended, Job, summary_line};
use desk_base::MemSink;
use desk_cases::Answer;
use sheet_clean::SheetTexts;
use sheet_filter::Outputs;
use std::alloc::Global;
use std::test::Fail;

/// How a run ended, and what was written.
pub struct Told {
    pub ended: Ended,
    pub sheets: SheetTexts,
}

/// One call lets it go (`docs/gate.md`).
impl Drop for Told {
    fn drop(self) {
        let Told { ended, sheets } = self;
        drop(ended);
        drop(sheets);
    }
}

impl Told {
    /// What is told where nothing was written.
    pub fn unwritten(alloc: Global, ended: Ended) -> Told {
        let sheets = SheetTexts {
            clean: Vec::new(alloc),
            changes: Vec::new(alloc),
            conflicts: Vec::new(alloc),
            dissents: Vec::new(alloc),
        };
        Told { ended, sheets }
    }

    /// What is told where a text or a clean sheet alone was written.
    pub fn with_clean(alloc: Global, ended: Ended, clean: &MemSink) -> Result<Told, Fail> {
        let mut told = Told::unwritten(alloc, ended);
        told.sheets.clean.extend_from_slice(clean.bytes())?;
        Ok(told)
    }

    /// What is told where a sheet was cleaned. Where no sheet of changes is wanted, what its sink and the two after it
    /// hold is not told.
    pub fn of(
        alloc: Global,
        ended: Ended,
        job: &Job<'_>,
        outputs: &Outputs<MemSink, MemSink>,
    ) -> Result<Told, Fail> {
        let mut told = Told::with_clean(alloc, ended, &outputs.clean)?;
        if job.changes.is_some() {
            let sheets = &mut told.sheets;
            sheets.changes.extend_from_slice(outputs.changes.bytes())?;
            sheets
                .conflicts
                .extend_from_slice(outputs.conflicts.bytes())?;
            sheets.dissents.extend_from_slice(outputs.dissents.bytes())?;
        }
        Ok(told)
    }

    /// What was written to a sink.
    pub fn written(&self, device: Device) -> &[u8] {
        match device {
            Device::Source => &[],
            Device::Clean => self.sheets.clean.as_slice(),
            Device::Changes => self.sheets.changes.as_slice(),
            Device::Conflicts => self.sheets.conflicts.as_slice(),
            Device::Dissents => self.sheets.dissents.as_slice(),
        }
    }

    /// Adds the status, why it ended, the summary, and each sheet of which something was written.
    pub fn add(&self, answer: &mut Answer) -> Result<(), Fail> {
        answer.number_once("status", u64::from(self.ended.status.code()))?;
        if let Some(why) = &self.ended.why {
            answer.bytes_once("says", why.as_bytes())?;
        }
        if let Some(summary) = &self.ended.summary {
            let line = summary_line(answer.alloc(), summary)?;
            answer.bytes_once("summary", line.as_bytes())?;
        }
        add_sheet(answer, "clean", self.written(Device::Clean))?;
        add_sheet(answer, "changes", self.written(Device::Changes))?;
        add_sheet(answer, "conflicts", self.written(Device::Conflicts))?;
        add_sheet(answer, "dissents", self.written(Device::Dissents))
    }
}

fn add_sheet(answer: &mut Answer, name: &str, sheet: &[u8]) -> Result<(), Fail> {
    if sheet.is_empty() {
        return Ok(());
    }
    answer.bytes_once(name, sheet)
}
