//! The books of the editions that were used last.
ghost use Rattle.std.specs.Prelude.{◌≡◌, ◌≤◌, length, nat_eq, option_copied, IfOk, OnOk, OnErr, IsOk, IsSome, []};
ghost use Rattle.std.specs.Map.{lookup};
ghost use Rattle.master_index.specs.Held.{brought_first, put_first};

use crate::sorted_book::SortedBook;
use desk_base::NoMemory;
use fix_model::Names;
use lru::LruCache;
use std::alloc::Global;
use std::marker::Model;
use std::num::NonZeroUsize;

/// How many editions a shelf holds at most.
pub const MAX_HELD: usize = 4;

/// The book of an edition, with the names of its kit's places.
#[derive(Debug, Drop)]
pub struct Shelved {
    pub book: SortedBook,
    pub names: Names,
}

/// The books of the four editions that were used last. A clause sees the pairs of an edition and what is
/// shelved of it, the last used first.
#[derive(Drop)]
pub struct Shelf {
    books: LruCache<u32, Shelved>,
}

impl Model for Shelf {
    ghost use Rattle.std.specs.Prelude.{◌≡◌, ◌≤◌, ℕ, List, length};
    ghost use Rattle.master_index.specs.declared.shelf.Shelved.{Shelved};
    ghost use Rattle.master_index.specs.declared.shelf.TheConstants.{MAX_HELD};

    ghost Value = { List (ℕ × Shelved) };

    ghost view = { λ s. s.books.entries };

    ghost invariant = { λ s. (s.books.cap ≡ MAX_HELD) × (length s.books.entries ≤ MAX_HELD) };
}

impl Shelf {
    ghost use Rattle.std.specs.Borrow.{sem};
    ghost use Rattle.master_index.specs.Lending.{EndsFirst};

    /// A shelf that holds nothing yet.
    pub fn new(alloc: Global) -> Result<Shelf, NoMemory>
        ensures { IfOk result (λ shelf. shelf ≡ []) }
    {
        let most = NonZeroUsize::new(MAX_HELD).unwrap();
        Ok(Shelf {
            books: LruCache::new(alloc, most)?,
        })
    }

    /// What is shelved of an edition, or nothing where it is not held. It comes to the front. It succeeds
    /// whatever memory there is.
    pub fn get(&mut self, edition: u32) -> Option<&Shelved>
        ensures* first { sem 𝓛 (EndsFirst self.entry edition) }
        ensures held { option_copied result ≡ lookup (nat_eq edition) self.old }
    {
        self.books.get(&edition)
    }

    /// What is shelved of an edition, or nothing where it is not held. The order stays.
    pub fn peek(&self, edition: u32) -> Option<&Shelved>
        ensures held { option_copied result ≡ lookup (nat_eq edition) self.now }
        ensures few { length self.now ≤ MAX_HELD }
    {
        self.books.peek(&edition)
    }

    /// Brings an edition to the front, if it is held. It succeeds whatever memory there is.
    pub fn bring(&mut self, edition: u32)
        ensures brought { self.new ≡ brought_first edition self.old }
        ensures few { length self.new ≤ MAX_HELD }
    {
        self.books.promote(&edition);
    }

    /// Puts an edition in front, over what is shelved of it. Where four others are held, the one that was
    /// used longest ago is dropped. Where there is no memory the shelf is as before, and what was to be put
    /// is gone; this cannot be where the edition is held.
    pub fn put(&mut self, edition: u32, shelved: Shelved) -> Result<(), NoMemory>
        ensures put { OnOk result (self.new ≡ put_first edition shelved self.old) }
        ensures unchanged { OnErr result (self.new ≡ self.old) }
        ensures held { IsSome (lookup (nat_eq edition) self.old) → IsOk result }
        ensures few { length self.new ≤ MAX_HELD }
    {
        match self.books.put(edition, shelved) {
            Ok(_) => Ok(()),
            Err(_) => Err(NoMemory),
        }
    }
}
