//! The bytes that were taken of a stream and are not done with. A clause sees them as a list.
ghost use Rattle.std.specs.Prelude.{◌≡◌, ◌≤◌, [], ◌++◌, length, drop, OnOk, OnErr};

use desk_base::NoMemory;
use std::alloc::Global;
use std::marker::Model;

/// Bytes after a place. What stands before the place is done with; it is moved away only before bytes are added, so
/// that requests that came together cost no move each.
#[derive(Debug, Drop)]
pub struct Window {
    bytes: Vec<u8>,
    start: usize,
}

impl Model for Window {
    ghost use Rattle.std.specs.Prelude.{ℕ, ◌≤◌, List, drop, length};

    ghost Value = { List ℕ };

    ghost view = { λ w. drop w.start w.bytes.items };

    ghost invariant = { λ w. w.start ≤ length w.bytes.items };
}

impl Window {
    /// No bytes.
    pub fn new(alloc: Global) -> Window
        ensures { result ≡ [] }
    {
        Window {
            bytes: Vec::new(alloc),
            start: 0,
        }
    }

    /// The bytes.
    pub fn bytes(&self) -> &[u8]
        ensures { result.now ≡ self.now }
    {
        &self.bytes[self.start..]
    }

    /// The allocator that the window was made with.
    pub fn allocator(&self) -> Global {
        *self.bytes.allocator()
    }

    /// Has done with the first bytes.
    pub fn skip(&mut self, count: usize)
        requires { count ≤ length self.old }
        ensures { self.new ≡ drop count self.old }
    {
        self.start += count;
    }

    /// Has done with all bytes.
    pub fn clear(&mut self)
        ensures { self.new ≡ [] }
    {
        self.start = self.bytes.len();
    }

    /// Adds bytes after the others.
    pub fn add(&mut self, piece: &[u8]) -> Result<(), NoMemory>
        ensures added { OnOk result (self.new ≡ self.old ++ piece.now) }
        ensures unchanged { OnErr result (self.new ≡ self.old) }
    {
        self.settle();
        match self.bytes.extend_from_slice(piece) {
            Ok(()) => Ok(()),
            Err(_) => Err(NoMemory),
        }
    }

    /// Moves the bytes to the front of the memory.
    fn settle(&mut self)
        ensures { self.new ≡ self.old }
    {
        if self.start > 0 {
            move_to_front(&mut self.bytes, self.start);
            self.start = 0;
        }
    }
}

/// Leaves what stands from a place on.
fn move_to_front(bytes: &mut Vec<u8>, start: usize)
    requires { start ≤ length bytes.old.items }
    ensures { bytes.new.items ≡ drop start bytes.old.items }
{
    let count = bytes.len() - start;
    bytes.copy_within(start.., 0);
    bytes.truncate(count);
}
