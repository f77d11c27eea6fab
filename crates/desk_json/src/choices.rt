//! How it is shown what a session is about.
ghost use Rattle.desk_json.specs.Choices.{choice_shown, choices_shown, dissent_shown, origin_shown};

use crate::shown::{Show, field};
use desk_words::{Choices, ShownChoice, ShownDissent, ShownStep};
use json_parts::JsonText;
use std::alloc::AllocError;

/// A step with the master of its rule.
impl Show for ShownStep {
    ghost shown = { origin_shown };

    fn show(&self, out: &mut JsonText) -> Result<(), AllocError> {
        out.begin_array()?;
        self.rule.show(out)?;
        self.master.show(out)?;
        self.row.show(out)?;
        out.end_array()
    }
}

/// An attribute with its texts at two ends.
impl Show for ShownChoice {
    ghost shown = { choice_shown };

    fn show(&self, out: &mut JsonText) -> Result<(), AllocError> {
        out.begin_array()?;
        self.name.show(out)?;
        self.first.text.show(out)?;
        self.first.step.show(out)?;
        self.second.text.show(out)?;
        self.second.step.show(out)?;
        out.end_array()
    }
}

/// What a record has, and what a step would have copied.
impl Show for ShownDissent {
    ghost shown = { dissent_shown };

    fn show(&self, out: &mut JsonText) -> Result<(), AllocError> {
        out.begin_array()?;
        self.name.show(out)?;
        self.text.show(out)?;
        self.step.rule.show(out)?;
        self.step.master.show(out)?;
        self.step.row.show(out)?;
        self.other.show(out)?;
        out.end_array()
    }
}

/// What a session is about.
impl Show for Choices {
    ghost shown = { choices_shown };

    fn show(&self, out: &mut JsonText) -> Result<(), AllocError> {
        out.begin_object()?;
        field(out, "choices", &self.choices)?;
        field(out, "dissent", &self.dissent)?;
        field(out, "session", &self.session)?;
        out.end_object()
    }
}
