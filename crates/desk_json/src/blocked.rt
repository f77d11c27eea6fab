//! How it is shown what is blocked in a session.
ghost use Rattle.desk_json.specs.Blocked.{attribute_shown, blocked_shown, rule_shown};

use crate::shown::{Show, field};
use desk_words::{Blocked, ShownBlocked, ShownBlocker, ShownRule};
use json_parts::JsonText;
use std::alloc::AllocError;

/// A rule with what stands in its way.
impl Show for ShownRule {
    ghost shown = { rule_shown };

    fn show(&self, out: &mut JsonText) -> Result<(), AllocError> {
        out.begin_array()?;
        self.rule.show(out)?;
        match &self.blocker {
            ShownBlocker::Unknown(names) => {
                "unknown".show(out)?;
                names.show(out)?;
            }
            ShownBlocker::Pattern(name) => {
                "pattern".show(out)?;
                name.show(out)?;
            }
            ShownBlocker::NoRow(master) => {
                "no_row".show(out)?;
                master.show(out)?;
            }
        }
        out.end_array()
    }
}

/// An attribute with its rules.
impl Show for ShownBlocked {
    ghost shown = { attribute_shown };

    fn show(&self, out: &mut JsonText) -> Result<(), AllocError> {
        out.begin_array()?;
        self.name.show(out)?;
        self.rules.show(out)?;
        out.end_array()
    }
}

/// What is blocked in a session.
impl Show for Blocked {
    ghost shown = { blocked_shown };

    fn show(&self, out: &mut JsonText) -> Result<(), AllocError> {
        out.begin_object()?;
        field(out, "blocked", &self.attributes)?;
        field(out, "session", &self.session)?;
        out.end_object()
    }
}
