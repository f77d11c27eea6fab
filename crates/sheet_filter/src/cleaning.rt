//! A sheet that is being cleaned.
ghost use Rattle.std.specs.Prelude.{◌≡◌, IfOk, None, OnOk};
ghost use Rattle.fix_engine.specs.WorkSeen.{IsRoomFor};
ghost use Rattle.fix_model.specs.Valid.{IsValid};
ghost use Rattle.sheet_clean.specs.Sheets.{no_rows};
ghost use Rattle.sheet_filter.specs.Cleaning.{stop_end, told, unread_end, whole_end};

use crate::end::End;
use crate::stop::Stop;
use desk_base::NoMemory;
use fix_engine::Work;
use fix_model::Book;
use sheet_blocks::BlocksFault;
use sheet_clean::{Layout, SheetFault, Summary};
use std::alloc::Global;

/// A sheet that is being cleaned: the room that its rows are decided in, the layout of its header, once that was read,
/// and what its rows come to so far.
#[derive(Drop)]
pub(crate) struct Cleaning {
    pub(crate) work: Work,
    pub(crate) layout: Option<Layout>,
    pub(crate) summary: Summary,
}

impl Cleaning {
    /// One of which nothing was read.
    pub(crate) fn new<B: Book<()>>(alloc: Global, book: &B) -> Result<Cleaning, NoMemory>
        ensures room { IfOk result (λ cleaning. IsRoomFor cleaning.work (B.kit book.now)) }
        ensures valid { OnOk result (IsValid (B.kit book.now)) }
        ensures none { IfOk result (λ cleaning. cleaning.layout ≡ None) }
        ensures no_rows { IfOk result (λ cleaning. cleaning.summary ≡ no_rows) }
    {
        Ok(Cleaning {
            work: Work::new(alloc, book.width(), book.rules().len() as u16)?,
            layout: None,
            summary: Summary::new(),
        })
    }

    /// The summary, where there was a header.
    fn told(&self) -> Option<Summary>
        ensures { result ≡ told self.now }
    {
        match &self.layout {
            Some(_) => Some(self.summary),
            None => None,
        }
    }

    /// How it ends where no bytes come.
    pub(crate) fn unread(&self, fault: BlocksFault) -> End
        ensures { result ≡ unread_end (told self.now) fault }
    {
        match fault {
            BlocksFault::Failed => End::ReadFault(self.told()),
            BlocksFault::NoMemory => End::NoMemory,
        }
    }

    /// How it ends where no more rows are taken.
    pub(crate) fn stopped(&self, stop: Stop) -> End
        ensures { result ≡ stop_end (told self.now) stop }
    {
        match stop {
            Stop::Refused(fault) => End::Refused(fault, self.told()),
            Stop::Failed => End::WriteFault,
            Stop::NoMemory => End::NoMemory,
        }
    }

    /// How it ends at the end of the sheet.
    pub(crate) fn done(&self) -> End
        ensures { result ≡ whole_end (told self.now) }
    {
        match self.told() {
            Some(summary) => End::Done(summary),
            None => End::Refused(SheetFault::NoHeader, None),
        }
    }
}
