//! Taking bytes from a source until the next request stands.
ghost use Rattle.std.specs.Prelude.{◌≡◌, ◌≤◌, ◌<◌, ◌+◌, ℕ, Bool, [], drop, length, Ok, IfOk, IsErrOf};
ghost use Rattle.std.specs.Io.KnownBytes.{IsAtEnd};
ghost use Rattle.desk_base.specs.Faults.{Rose};
ghost use Rattle.desk_base.specs.declared.limits.TheConstants.{MAX_HEAD};
ghost use Rattle.http_cut.specs.declared.intake.IntakeFault.TheVariants as faults;
ghost use Rattle.http_cut.specs.declared.step.BadRest.{BadRest};
ghost use Rattle.http_cut.specs.declared.step.Request.{Request};
ghost use Rattle.http_cut.specs.declared.step.Step.TheVariants as steps;
ghost use Rattle.http_cut.specs.Looks.{IsStep};
ghost use Rattle.http_cut.specs.Taking.{Fetches, ReadsNoFurther};

use crate::routes::Routes;
use crate::step::{Step, first_step};
use crate::window::Window;
use desk_base::{Failed, NoMemory, Source};
use std::alloc::Global;
use std::marker::Model;
use thiserror::Error;

/// How many bytes a read asks for.
pub const PIECE: usize = 65_536;

/// Why no step was found.
#[derive(Clone, Copy, Debug, PartialEq, Eq, Error)]
pub enum IntakeFault {
    /// A read failed.
    #[error("a read failed")]
    Failed,
    /// There was no memory for what was read.
    #[error("there was no memory")]
    NoMemory,
}

impl From<Failed> for IntakeFault {
    ghost from_gives = { λ _ fault. fault ≡ faults.Failed };

    fn from(_failed: Failed) -> IntakeFault {
        IntakeFault::Failed
    }
}

impl From<NoMemory> for IntakeFault {
    ghost from_gives = { λ _ fault. fault ≡ faults.NoMemory };

    fn from(_want: NoMemory) -> IntakeFault {
        IntakeFault::NoMemory
    }
}

/// What is held while the requests of streams are taken: the table of routes, room for what is read, and the bytes that
/// were taken and are not done with. A clause sees these bytes as a list.
#[derive(Drop)]
pub struct Intake {
    routes: Routes,
    window: Window,
    piece: Vec<u8>,
}

impl Model for Intake {
    ghost use Rattle.std.specs.Prelude.{◌≡◌, ℕ, List, length};
    ghost use Rattle.http_cut.specs.declared.intake.TheConstants.{PIECE};

    ghost Value = { List ℕ };

    ghost view = { λ i. i.window };

    ghost invariant = { λ i. length i.piece.items ≡ PIECE };
}

impl Intake {
    /// No bytes.
    pub fn new(alloc: Global) -> Result<Intake, NoMemory>
        ensures { IfOk result (λ intake. intake ≡ []) }
    {
        let routes = Routes::new(alloc)?;
        let piece = vec![in alloc; 0u8; PIECE]?;
        let window = Window::new(alloc);
        Ok(Intake {
            routes,
            window,
            piece,
        })
    }

    /// The table of routes.
    pub fn routes(&self) -> &Routes {
        &self.routes
    }

    /// The allocator that the intake was made with.
    pub fn allocator(&self) -> Global {
        self.window.allocator()
    }

    /// The bytes that were taken and are not done with.
    pub fn bytes(&self) -> &[u8]
        ensures { result.now ≡ self.now }
    {
        self.window.bytes()
    }

    /// Has done with the first bytes.
    pub fn skip(&mut self, count: usize)
        requires { count ≤ length self.old }
        ensures { self.new ≡ drop count self.old }
    {
        self.window.skip(count);
    }

    /// Has done with all bytes, so that another stream can be taken.
    pub fn clear(&mut self)
        ensures { self.new ≡ [] }
    {
        self.window.clear();
    }

    /// What stands at the front of the bytes, as [`next_step`] says it.
    pub fn next_step<S: Source>(&mut self, source: &mut S) -> Result<Step, IntakeFault>
        requires few { length self.old < PIECE }
        ensures fetched { Fetches (S.left source.old) (S.left source.new) self.old self.new result }
        ensures order { ReadsNoFurther S.reads source.old source.new self.old self.new result }
        ensures end { (least : ℕ) → result ≡ Ok (steps.NeedMore least) → IsAtEnd (S.left source.new) }
        ensures following { (request : Request) → result ≡ Ok (steps.Whole request)
            → length self.new < request.body.end + PIECE }
        ensures following_bad { (kind : BadRest) (asks_head : Bool) → result ≡ Ok (steps.Bad kind asks_head)
            → length self.new < MAX_HEAD + PIECE }
        ensures cause { IsErrOf result IntakeFault.Failed
            → Rose (S.read_faults source.old) (S.read_faults source.new) }
        ensures later { S.read_faults source.old ≤ S.read_faults source.new }
        ensures steady { S.is_steady source.old → ¬ IsErrOf result IntakeFault.Failed × S.is_steady source.new }
    {
        let piece = self.piece.as_mut_slice();
        next_step(&self.routes, &mut self.window, source, piece)
    }
}

/// What stands at the front of the window, where as many bytes are taken from the source as that needs. `NeedMore`
/// comes only where the source has ended. A read asks for as many bytes as the piece has, and is made only where no
/// whole request stands.
pub fn next_step<S: Source>(
    routes: &Routes,
    window: &mut Window,
    source: &mut S,
    piece: &mut [u8],
) -> Result<Step, IntakeFault>
    requires piece { length piece.old ≡ PIECE }
    requires few { length window.old < PIECE }
    ensures fetched { Fetches (S.left source.old) (S.left source.new) window.old window.new result }
    ensures order { ReadsNoFurther S.reads source.old source.new window.old window.new result }
    ensures end { (least : ℕ) → result ≡ Ok (steps.NeedMore least) → IsAtEnd (S.left source.new) }
    ensures following { (request : Request) → result ≡ Ok (steps.Whole request)
        → length window.new < request.body.end + PIECE }
    ensures following_bad { (kind : BadRest) (asks_head : Bool) → result ≡ Ok (steps.Bad kind asks_head)
        → length window.new < MAX_HEAD + PIECE }
    ensures cause { IsErrOf result IntakeFault.Failed
        → Rose (S.read_faults source.old) (S.read_faults source.new) }
    ensures later { S.read_faults source.old ≤ S.read_faults source.new }
    ensures steady { S.is_steady source.old → ¬ IsErrOf result IntakeFault.Failed × S.is_steady source.new }
{
    let mut step = first_step(routes, window.bytes());
    'reads: loop {
        let least = match step {
            Step::NeedMore(least) => least,
            _ => return Ok(step),
        };
        let count = source.read(piece)?;
        if count == 0 {
            return Ok(step);
        }
        window.add(&piece[..count])?;
        step = step_after(routes, window.bytes(), least);
    }
}

/// What stands at the front of bytes of which nothing is known before so many stand.
fn step_after(routes: &Routes, bytes: &[u8], least: usize) -> Step
    requires { length bytes.now < least → IsStep bytes.now (steps.NeedMore least) }
    ensures { IsStep bytes.now result }
{
    if bytes.len() < least {
        Step::NeedMore(least)
    } else {
        first_step(routes, bytes)
    }
}
