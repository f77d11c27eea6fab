//! The pages of the cases.
use http_desk::{ContentType, Page};
use web_run::PageTable;

/// The pages of a call of `serve_pages`.
#[derive(Drop)]
pub struct CasePages {
    pub pages: [Page; 6],
}

impl PageTable for CasePages {
    ghost listed = { λ table. table.pages };

    fn pages(&self) -> &[Page] {
        &self.pages
    }
}

/// The pages that are shown. Two have one path, and one has that of a route.
pub const PAGES: [Page; 6] = [
    Page {
        path: "/",
        kind: ContentType::Html,
        text: "<!DOCTYPE html>\n<title>Desk</title>\n",
    },
    Page {
        path: "/page.css",
        kind: ContentType::Css,
        text: "body { margin: 0 }\n",
    },
    Page {
        path: "/page.js",
        kind: ContentType::Script,
        text: "\"use strict\";\n",
    },
    Page {
        path: "/twice",
        kind: ContentType::Css,
        text: "body { margin: 0 }\n",
    },
    Page {
        path: "/twice",
        kind: ContentType::Script,
        text: "\"use strict\";\n",
    },
    Page {
        path: "/desk/report",
        kind: ContentType::Script,
        text: "\"use strict\";\n",
    },
];
