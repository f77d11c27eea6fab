//! What holds of derived rows, whatever the rules and the master are.
ghost use Rattle.std.specs.Prelude.{◌≡◌, ◌≢◌, ◌<◌, ◌↔◌, ℕ, [], length, All, Contains, true};
ghost use Rattle.std.specs.Prelude.{List as ListOf};
ghost use Rattle.std.specs.declared.option.Option.{Option as OptionOf};
ghost use Rattle.fix_model.specs.declared.state.Step.{Step as StepOf};
ghost use Rattle.fix_model.specs.Fix.{IsFix};
ghost use Rattle.fix_model.specs.Regions.{ConfirmsExactly, IsRowVerdict, row_state};
ghost use Rattle.fix_model.specs.States.{Fits};
ghost use Rattle.fix_model.specs.Valid.{IsValid};
ghost use Rattle.region_derive.specs.Derived.{AreDerived, IsDerived, texts_in};

use desk_base::Grid;
use fix_model::{Kit, RowVerdict, State};

/// A derived row promises a certain fix: every state that has exactly these attributes confirmed to its texts has one
/// with the same first run, whatever is typed elsewhere.
pub fn a_derived_row_promises_a_certain_fix(
    kit: &Kit,
    grid: &Grid,
    attributes: &[u16],
    columns: &[u16],
    row: u32,
    state: &State,
)
    requires valid { IsValid kit.now }
    requires fits { Fits kit.now state.now }
    requires derived { IsDerived kit.now grid.now attributes.now columns.now row }
    requires confirms { ConfirmsExactly kit.now attributes.now (texts_in grid.now columns.now row) state.now }
    ensures { (first : ListOf StepOf) × (dissent : OptionOf StepOf)
        × IsFix kit.now (row_state kit.now.width attributes.now (texts_in grid.now columns.now row)) first true dissent
        × IsFix kit.now state.now first true dissent }
{}

/// The texts of each row without a blank that promises a certain fix stand in the list: those of the first row that has
/// them.
pub fn every_certain_row_is_listed(
    kit: &Kit,
    grid: &Grid,
    attributes: &[u16],
    columns: &[u16],
    row: u32,
)
    requires within { row < length grid.now.rows }
    requires filled { All (λ text. text ≢ []) (texts_in grid.now columns.now row) }
    requires certain { IsRowVerdict kit.now attributes.now (texts_in grid.now columns.now row) RowVerdict.Certain }
    ensures { (found : ListOf (ℕ × ListOf (ListOf ℕ)))
        → AreDerived kit.now grid.now attributes.now columns.now found
        → (first : ℕ) × Contains found (first, texts_in grid.now columns.now row) }
{}

/// No texts stand twice in the list.
pub fn no_texts_are_listed_twice(
    kit: &Kit,
    grid: &Grid,
    attributes: &[u16],
    columns: &[u16],
    row: u32,
    other: u32,
)
    requires derived { IsDerived kit.now grid.now attributes.now columns.now row }
    requires other { IsDerived kit.now grid.now attributes.now columns.now other }
    requires same { texts_in grid.now columns.now row ≡ texts_in grid.now columns.now other }
    ensures { row ≡ other }
{}
