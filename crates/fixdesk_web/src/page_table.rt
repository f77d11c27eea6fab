//! The pages of the program, as they are handed on.
use http_desk::Page;
use web_run::PageTable;

/// The pages of the program.
#[derive(Drop)]
pub struct WebPages {
    pub pages: [Page; 3],
}

impl PageTable for WebPages {
    ghost listed = { λ table. table.pages };

    fn pages(&self) -> &[Page] {
        &self.pages
    }
}
