//! A record while it is keyed.
ghost use Rattle.std.specs.Prelude.{◌≡◌, ◌<◌, length, map, if◌then◌else◌, IfOk, IsTrue, ◌↔◌};
ghost use Rattle.fix_model.specs.declared.kit.Kit.{Kit};
ghost use Rattle.fix_model.specs.States.{cell_at, confirmed_cell, fixed_by, Fits, IsCovered, is_covering};

use desk_base::{Duplicate, List, NoMemory, Text};
use std::alloc::Global;

/// The application of a rule with a row of its master, both counted from 0.
#[derive(Clone, Copy, Debug, PartialEq, Eq)]
pub struct Step {
    pub rule: u16,
    pub row: u32,
}

/// How an attribute came to its value. It is covered where it is confirmed or fixed.
#[derive(Clone, Copy, Debug, PartialEq, Eq)]
pub enum Cell {
    /// The typed text stands, and nobody vouches for it.
    Uncovered,
    /// A clerk vouches for the typed text.
    Confirmed,
    /// The step gave the attribute its text.
    Fixed(Step),
}

impl Cell {
    /// Whether the cell is confirmed or fixed.
    pub fn is_covering(self) -> bool
        ensures { result ≡ is_covering self }
    {
        match self {
            Cell::Uncovered => false,
            Cell::Confirmed | Cell::Fixed(_) => true,
        }
    }
}

/// The typed text and the cell of each attribute, in the schema's order.
#[derive(Debug, Drop)]
pub struct State {
    pub typed: List<Text>,
    pub cells: List<Cell>,
}

impl State {
    /// The state of these typed texts, in which the attributes with a true flag are confirmed and the
    /// others uncovered.
    pub fn new(alloc: Global, typed: List<Text>, confirmed: &[bool]) -> Result<State, NoMemory>
        requires { length typed ≡ length confirmed.now }
        ensures typed { IfOk result (λ state. state.typed ≡ typed) }
        ensures cells { IfOk result (λ state. state.cells ≡ map confirmed_cell confirmed.now) }
        ensures fits { IfOk result (λ state. (kit : Kit) → length typed ≡ kit.width → Fits kit state) }
    {
        let mut cells = Vec::with_capacity(alloc, confirmed.len())?;
        'flags: for flag in confirmed {
            let cell = if *flag {
                Cell::Confirmed
            } else {
                Cell::Uncovered
            };
            cells.push(cell)?;
        }
        Ok(State {
            typed,
            cells: List::from_vec(cells),
        })
    }
}

impl State {
    /// Whether an attribute, counted from 0, is confirmed or fixed.
    pub fn covers(&self, attribute: u16) -> bool
        ensures { IsTrue result ↔ IsCovered self.now attribute }
    {
        match self.cells.as_slice().get(usize::from(attribute)) {
            Some(cell) => cell.is_covering(),
            None => false,
        }
    }
}

impl State {
    /// The step that fixed an attribute, counted from 0, or none where no step did.
    pub fn fixed_by(&self, attribute: u16) -> Option<Step>
        ensures { result ≡ fixed_by (cell_at self.now attribute) }
    {
        match self.cells.as_slice().get(usize::from(attribute)) {
            Some(Cell::Fixed(step)) => Some(*step),
            Some(Cell::Confirmed | Cell::Uncovered) | None => None,
        }
    }
}

impl Duplicate for Step {
    fn copy(&self) -> Result<Step, NoMemory> {
        Ok(*self)
    }
}

impl Duplicate for Cell {
    fn copy(&self) -> Result<Cell, NoMemory> {
        Ok(*self)
    }
}

impl Duplicate for State {
    fn copy(&self) -> Result<State, NoMemory> {
        Ok(State {
            typed: self.typed.copy()?,
            cells: self.cells.copy()?,
        })
    }
}
