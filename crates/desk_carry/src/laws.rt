//! What holds of moved sessions and of changed cells.
ghost use Rattle.std.specs.Prelude.{◌≡◌, ◌<◌, ℕ, length, slice_get, Some, AllPairs, ◌≢◌};
ghost use Rattle.desk_carry.specs.Changes.{AreApart, IsChanged};
ghost use Rattle.desk_carry.specs.Moves.{IsMoved};

use crate::session::Moved;
use desk_base::Text;
use desk_words::View;

/// An attribute whose word stands before and after keeps its text and its flag.
pub fn a_word_that_stays_keeps_its_text(
    before: &[Text],
    after: &[Text],
    typed: &[Text],
    confirmed: &[bool],
    made: &Moved,
    old: usize,
    new: usize,
)
    requires moved { IsMoved before.now after.now typed.now confirmed.now made.now }
    requires distinct { AllPairs (λ earlier later. earlier ≢ later) before.now }
    requires typed_whole { length typed.now ≡ length before.now }
    requires confirmed_whole { length confirmed.now ≡ length before.now }
    requires old { old < length before.now }
    requires new { new < length after.now }
    requires same { slice_get before.now old ≡ slice_get after.now new }
    ensures text { slice_get made.now.typed new ≡ slice_get typed.now old }
    ensures flag { slice_get made.now.confirmed new ≡ slice_get confirmed.now old }
{}

/// A cell is changed from one place at most.
pub fn one_place_before(before: &View, after: &View, old: usize, other: usize, new: usize)
    requires apart { AreApart before.now.cells }
    requires changed { IsChanged before.now.cells after.now.cells old new }
    requires other { IsChanged before.now.cells after.now.cells other new }
    ensures { old ≡ other }
{}
