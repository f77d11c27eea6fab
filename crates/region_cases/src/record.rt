//! The record of a case, with its kit.
ghost use Rattle.std.specs.Prelude.{◌≡◌, IfOk};
ghost use Rattle.fix_model.specs.States.{Fits};
ghost use Rattle.fix_model.specs.Valid.{IsValid};

use case_json::{Case as Record, case_of};
use desk_base::{List, Text};
use desk_cases::Case;
use fix_model::{ListBook, State};
use std::alloc::Global;
use std::test::Fail;

/// A record, the words of its attributes, and the plain book over its kit.
#[derive(Debug, Drop)]
pub struct Booked {
    pub attributes: List<Text>,
    pub book: ListBook,
    pub state: State,
}

impl Booked {
    /// The record with the book over its kit.
    pub fn new(given: Record) -> Booked
        requires valid { IsValid given.kit }
        requires fits { Fits given.kit given.state }
        ensures book { result.book ≡ given.kit }
        ensures fits { Fits result.book result.state }
    {
        let Record {
            attributes,
            kit,
            state,
        } = given;
        let book = ListBook::new(kit);
        Booked {
            attributes,
            book,
            state,
        }
    }
}

/// The case of `once` in the part `input`.
pub fn record_of(alloc: Global, case: &Case) -> Result<Record, Fail>
    ensures valid { IfOk result (λ given. IsValid given.kit) }
    ensures fits { IfOk result (λ given. Fits given.kit given.state) }
{
    match case_of(alloc, case.bytes("input")?) {
        Ok(record) => Ok(record),
        Err(_) => Err(Fail::new("the input is no case")),
    }
}
