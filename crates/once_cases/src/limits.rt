//! The limit of an index.
use desk_base::{Duplicate, Grid, List, TextList};
use desk_cases::{Answer, Case};
use fix_model::{Kit, Rule};
use master_index::{BuildFault, MapBook, SortedBook};
use std::alloc::Global;
use std::test::Fail;

/// How many rows the master has.
const ROWS: u32 = 20_000;

/// `built`, or why there is no index over 20,000 rows of five columns and rules of so many triples, one of which two
/// rules have. Both indexes have to tell the same.
pub fn told(case: &Case, answer: &mut Answer) -> Result<(), Fail> {
    let Some(triples) = case.number("triples") else {
        return Err(Fail::new("a case has no number of triples"));
    };
    let kit = kit(answer.alloc(), u16::try_from(triples).unwrap_or(u16::MAX))?;
    match built(answer.alloc(), kit)? {
        None => answer.text("wanted", "built"),
        Some(BuildFault::NoMemory) => Err(Fail::new("there was no memory")),
        Some(fault) => answer.shown("wanted", &fault),
    }
}

/// Why there is no index over a kit, if there is none.
fn built(alloc: Global, kit: Kit) -> Result<Option<BuildFault>, Fail> {
    if !kit.valid() {
        return Err(Fail::new("so many triples make no valid kit"));
    }
    let fault = MapBook::build(alloc, kit.copy()?).err();
    if SortedBook::build(alloc, kit).err() != fault {
        return Err(Fail::new("the indexes have other limits"));
    }
    Ok(fault)
}

fn kit(alloc: Global, triples: u16) -> Result<Kit, Fail> {
    let masters = masters(alloc)?;
    let rules = rules(alloc, triples)?;
    let folded = List::from_vec(vec![in alloc; false, false, false, false]?);
    Ok(Kit {
        width: 4,
        rules,
        masters,
        folded,
    })
}

fn masters(alloc: Global) -> Result<List<Grid>, Fail> {
    let mut masters = List::new(alloc);
    masters.push(grid(alloc)?)?;
    Ok(masters)
}

fn rules(alloc: Global, triples: u16) -> Result<List<Rule>, Fail> {
    let mut rules = List::new(alloc);
    rules.push(rule(alloc, 0, 3)?)?;
    for triple in 0..triples {
        rules.push(rule(alloc, triple, 2)?)?;
    }
    Ok(rules)
}

/// A rule of a triple, with this head.
fn rule(alloc: Global, triple: u16, head: u16) -> Result<Rule, Fail> {
    Ok(Rule {
        keys: List::from_vec(vec![in alloc; (0, triple / 25), (1, triple / 5 % 5)]?),
        head,
        from: triple % 5,
        master: 0,
        conds: List::new(alloc),
    })
}

fn grid(alloc: Global) -> Result<Grid, Fail> {
    let mut cells = TextList::new(alloc);
    for _ in 0..ROWS {
        for content in ["a", "b", "c", "d", "e"] {
            cells.push(content)?;
        }
    }
    if cells.len() != 5 * ROWS as usize {
        return Err(Fail::new("a grid has other cells than its rows have"));
    }
    Ok(Grid::from_cells(5, ROWS, cells))
}
