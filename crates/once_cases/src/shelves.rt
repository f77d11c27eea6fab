//! What a shelf holds.
use desk_base::List;
use desk_cases::{Answer, Case};
use fix_model::{Book, Kit, Names};
use master_index::{Shelf, Shelved, SortedBook};
use std::alloc::{AllocError, Global};
use std::test::Fail;

/// What is held of each edition that is got, in turn, after those that were put: as many attributes as its number
/// says, or `none`.
pub fn told(case: &Case, answer: &mut Answer) -> Result<(), Fail> {
    let mut shelf = Shelf::new(answer.alloc())?;
    put_all(&mut shelf, case, answer.alloc())?;
    add_held(&mut shelf, case, answer)
}

fn put_all(shelf: &mut Shelf, case: &Case, alloc: Global) -> Result<(), Fail> {
    for number in &case.numbers(alloc, "put")? {
        let width = u16::try_from(*number).unwrap_or(u16::MAX);
        shelf.put(u32::from(width), edition(alloc, width)?)?;
    }
    Ok(())
}

fn add_held(shelf: &mut Shelf, case: &Case, answer: &mut Answer) -> Result<(), Fail> {
    let numbers = case.numbers(answer.alloc(), "get")?;
    let mut held = String::new(answer.alloc());
    tell_held(&mut held, shelf, numbers.as_slice())?;
    answer.text("held", held.as_str())
}

fn tell_held(held: &mut String, shelf: &mut Shelf, numbers: &[u64]) -> Result<(), AllocError> {
    for (place, number) in numbers.iter().enumerate() {
        if place > 0 {
            held.push_str(" ")?;
        }
        match width_on(shelf, u32::try_from(*number).unwrap_or(u32::MAX)) {
            Some(width) => write!(held, "{width}")?,
            None => held.push_str("none")?,
        }
    }
    Ok(())
}

/// An edition whose kit has no rules and so many attributes.
fn edition(alloc: Global, width: u16) -> Result<Shelved, Fail> {
    let kit = Kit {
        width,
        rules: List::new(alloc),
        masters: List::new(alloc),
        folded: List::from_vec(vec![in alloc; false; usize::from(width)]?),
    };
    if !kit.valid() {
        return Err(Fail::new("an edition has another number than 1 to 48"));
    }
    Ok(Shelved {
        book: SortedBook::build(alloc, kit)?,
        names: Names {
            attributes: List::new(alloc),
            rules: List::new(alloc),
            masters: List::new(alloc),
        },
    })
}

fn width_on(shelf: &mut Shelf, edition: u32) -> Option<u16> {
    let shelved = shelf.get(edition)?;
    Some(<SortedBook as Book<()>>::width(&shelved.book))
}
