//! How what was published is shown.
ghost use Rattle.desk_json.specs.Published.{catalogue_shown, edition_shown, master_row_shown, region_sheet_shown};
ghost use Rattle.desk_json.specs.Published.{rule_shown};

use crate::shown::{Show, field};
use desk_words::{Catalogue, EditionSheet, MasterRowSheet, RegionSheet, RuleSummary};
use json_parts::JsonText;
use std::alloc::AllocError;

/// What stands, by its names.
impl Show for Catalogue {
    ghost shown = { catalogue_shown };

    fn show(&self, out: &mut JsonText) -> Result<(), AllocError> {
        out.begin_object()?;
        field(out, "clerks", &self.clerks)?;
        field(out, "editions", &self.editions)?;
        field(out, "last", &self.last)?;
        field(out, "masters", &self.masters)?;
        field(out, "rulebooks", &self.rulebooks)?;
        field(out, "schemas", &self.schemas)?;
        out.end_object()
    }
}

/// A rule by names.
impl Show for RuleSummary {
    ghost shown = { rule_shown };

    fn show(&self, out: &mut JsonText) -> Result<(), AllocError> {
        out.begin_array()?;
        self.name.show(out)?;
        self.keys.show(out)?;
        self.head.show(out)?;
        self.master.show(out)?;
        out.end_array()
    }
}

/// A version of an edition.
impl Show for EditionSheet {
    ghost shown = { edition_shown };

    fn show(&self, out: &mut JsonText) -> Result<(), AllocError> {
        out.begin_object()?;
        field(out, "attributes", &self.attributes)?;
        field(out, "edition", &self.edition)?;
        field(out, "folded", &self.folded)?;
        field(out, "masters", &self.masters)?;
        field(out, "regions", &self.regions)?;
        field(out, "rulebook", &self.rulebook)?;
        field(out, "rules", &self.rules)?;
        field(out, "schema", &self.schema)?;
        field(out, "version", &self.version)?;
        out.end_object()
    }
}

/// A row of a version of a master.
impl Show for MasterRowSheet {
    ghost shown = { master_row_shown };

    fn show(&self, out: &mut JsonText) -> Result<(), AllocError> {
        out.begin_object()?;
        field(out, "cells", &self.cells)?;
        field(out, "master", &self.master)?;
        field(out, "row", &self.row)?;
        field(out, "version", &self.version)?;
        out.end_object()
    }
}

/// A region of a version of an edition.
impl Show for RegionSheet {
    ghost shown = { region_sheet_shown };

    fn show(&self, out: &mut JsonText) -> Result<(), AllocError> {
        out.begin_object()?;
        field(out, "attributes", &self.attributes)?;
        field(out, "edition", &self.edition)?;
        field(out, "region", &self.region)?;
        field(out, "rows", &self.rows)?;
        field(out, "verdicts", &self.verdicts)?;
        field(out, "version", &self.version)?;
        out.end_object()
    }
}
