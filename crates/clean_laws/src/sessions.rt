//! A clean row beside a session with its cells.
//!
//! `specs/Sessions.antt` says when a session has the cells of a row, and what it is to show the same.
ghost use Rattle.std.specs.Prelude.{◌≡◌, ◌≢◌, ℕ, AllPairs, List, Ok, Some};
ghost use Rattle.desk_valid.specs.Bindings.{bound_at};
ghost use Rattle.desk_valid.specs.declared.bound.Bound.{Bound as BoundOf};
ghost use Rattle.desk_words.specs.Tables.{published_of, rows_of};
ghost use Rattle.desk_words.specs.declared.view.View.{View as ViewOf};
ghost use Rattle.machine_core.specs.Checked.{Gives};
ghost use Rattle.machine_core.specs.Views.{view_of};
ghost use Rattle.sheet_clean.specs.Decision.{IsDecided, Row};
ghost use Rattle.sheet_clean.specs.Setting.{IsSettingOf};
ghost use Rattle.clean_laws.specs.Sessions.{HasRow, ShowsRow};

use desk_words::{SessionRow, Tables};
use sheet_clean::Setting;

/// The cells of a clean row are those that a session of an edition with the same kit shows, where it has the cells that
/// came and its known attributes are confirmed that are not blank; and its verdict is what the session shows of it. An
/// attribute without a column is a blank and open in the session, and a column that is no attribute has no part in it.
pub fn a_clean_row_shows_what_a_session_shows(
    tables: &Tables,
    number: u32,
    session: &SessionRow,
    setting: &Setting,
)
    requires { AllPairs (λ one other. one ≢ other) setting.now.names.attributes }
    ensures { (bound : BoundOf) (header : List (List ℕ)) (row : Row) (view : ViewOf)
        → bound_at (published_of (rows_of tables.now)) session.now.edition ≡ Some bound
        → IsSettingOf bound.kit setting.now
        → HasRow setting.now header row.cells session.now
        → IsDecided bound.kit setting.now header row
        → Gives (view_of (published_of (rows_of tables.now)) number session.now) (Ok view)
        → ShowsRow bound.kit setting.now header row view }
{}
