//! Which lists of texts have come already.
ghost use Rattle.std.specs.Prelude.{◌≡◌, ◌||◌, not, false, ℕ, List, map, IfOk, OnOk};
ghost use Rattle.region_derive.specs.Seen.{are_same, has_come};

use desk_base::{NoMemory, Text};
use std::alloc::Global;
use std::collections::BTreeSet;

/// Lists of texts, each once.
#[derive(Debug, Drop)]
pub(crate) struct Seen {
    lists: BTreeSet<Vec<Vec<u8>>>,
}

impl Seen {
    /// No list has come yet.
    pub(crate) fn new(alloc: Global) -> Seen
        ensures { (other : List (List ℕ)) → has_come result other ≡ false }
    {
        Seen {
            lists: BTreeSet::new(alloc),
        }
    }

    /// Keeps a list, and says whether it is new.
    pub(crate) fn keep(&mut self, alloc: Global, texts: &[Text]) -> Result<bool, NoMemory>
        ensures new { IfOk result (λ is_new. is_new ≡ not (has_come self.old texts.now)) }
        ensures kept { OnOk result ((other : List (List ℕ))
            → has_come self.new other ≡ (are_same other texts.now || has_come self.old other)) }
    {
        match self.lists.insert(key_of(alloc, texts)?) {
            Ok(is_new) => Ok(is_new),
            Err(_) => Err(NoMemory),
        }
    }
}

/// The bytes of each text.
fn key_of(alloc: Global, texts: &[Text]) -> Result<Vec<Vec<u8>>, NoMemory>
    ensures { IfOk result (λ key. map (λ text. text.items) key.items ≡ texts.now) }
{
    let mut key = Vec::new(alloc);
    'texts: for text in texts {
        key.push(text.as_str().as_bytes().to_vec(alloc)?)?;
    }
    Ok(key)
}
