//! The tables that requests leave, as what they show.
use crate::calls::serve;
use crate::keeping::{fresh, shown};
use crate::script::Script;
use desk_cases::{Answer, Case};
use keeper_core::{Keeper, MemKeeper};
use std::alloc::Global;
use std::test::Fail;

impl Script {
    /// Adds the words of the part `tables` of a case, where the keeper has the tables that the requests leave which
    /// they name, sent to an empty desk in one stream; else what its tables show. Nothing where there is no such part.
    pub fn add_tables<K: Keeper>(
        &self,
        case: &Case,
        keeper: &mut K,
        answer: &mut Answer,
    ) -> Result<(), Fail> {
        match case.text("tables") {
            Some(words) => self.add_left(case, words, keeper, answer),
            None => Ok(()),
        }
    }

    fn add_left<K: Keeper>(
        &self,
        case: &Case,
        words: &str,
        keeper: &mut K,
        answer: &mut Answer,
    ) -> Result<(), Fail> {
        let found = shown(answer.alloc(), keeper)?;
        let requests = self.named(answer.alloc(), case, words)?;
        let is_left = leave(answer.alloc(), requests.as_slice(), found.as_str())?;
        answer.text("tables", if is_left { words } else { found.as_str() })
    }
}

/// Whether requests to an empty desk, sent in one stream, leave tables that show this.
pub fn leave(alloc: Global, requests: &[u8], wanted: &str) -> Result<bool, Fail> {
    let mut keeper = fresh(alloc)?;
    leave_in(alloc, &mut keeper, requests, wanted)
}

fn leave_in(
    alloc: Global,
    keeper: &mut MemKeeper,
    requests: &[u8],
    wanted: &str,
) -> Result<bool, Fail> {
    let _told = serve(alloc, keeper, requests)?;
    shows(alloc, keeper, wanted)
}

fn shows(alloc: Global, keeper: &mut MemKeeper, wanted: &str) -> Result<bool, Fail> {
    let found = shown(alloc, keeper)?;
    Ok(found.as_str() == wanted)
}
