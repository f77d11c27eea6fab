//! A door that hands out links. A clause sees how many it handed out and how many are open, what it tells of them, and
//! how often it has failed.
ghost use Rattle.std.specs.Prelude.{◌≡◌, ◌+◌, ℕ, Some, IsOk, IfOk, OnOk, OnErr};
ghost use Rattle.desk_base.specs.Faults.{HasCause};
ghost use Rattle.desk_links.specs.Doors.{Closes, Door, HandsOut, IsFresh, MayAccept, link_seen, one_more};

use desk_base::{Both, Failed, Sink, Source};

/// What hands out links to peers, one open at a time.
pub trait Listener {
    /// What a link is read by.
    type Source: Source;

    /// What a link is written to.
    type Sink: Sink;

    /// What the door tells.
    ghost seen: { Self → Door };

    /// The door is bound, and hands out the next so many links, without a fault.
    ghost offers: { Self → ℕ → Type 0 };

    /// Binds the door to the port of this machine with this number, at which peers find it.
    fn bind(&mut self, number: u16) -> Result<(), Failed>
        requires { (seen self.old).live ≡ 0 }
        ensures port { OnOk result ((seen self.new).port ≡ Some number) }
        ensures accepted { OnOk result ((seen self.new).accepted ≡ Some 0) }
        ensures unbound { OnErr result (((seen self.new).port ≡ (seen self.old).port)
            × ((seen self.new).accepted ≡ (seen self.old).accepted)) }
        ensures live { (seen self.new).live ≡ (seen self.old).live }
        ensures waiting { (seen self.new).waiting ≡ (seen self.old).waiting }
        ensures closed { (seen self.new).closed ≡ (seen self.old).closed }
        ensures cause { HasCause (seen self.old).faults (seen self.new).faults result }
        ensures offers { (count : ℕ) → offers self.old count → IsOk result × offers self.new count };

    /// Hands out the next link. It has all its bytes left, and nothing was written to it.
    fn accept(&mut self) -> Result<Both<Self::Source, Self::Sink>, Failed>
        requires idle { (seen self.old).live ≡ 0 }
        requires bound { MayAccept (seen self.old).accepted }
        ensures counted { OnOk result ((seen self.new).accepted ≡ one_more (seen self.old).accepted) }
        ensures uncounted { OnErr result ((seen self.new).accepted ≡ (seen self.old).accepted) }
        ensures opened { OnOk result ((seen self.new).live ≡ 1) }
        ensures unopened { OnErr result ((seen self.new).live ≡ 0) }
        ensures port { (seen self.new).port ≡ (seen self.old).port }
        ensures link { IfOk result (λ link. HandsOut (seen self.old).waiting (seen self.new).waiting
            (link_seen Self.Source.Source Self.Sink.Sink link)) }
        ensures fresh { IfOk result (λ link. IsFresh
            (link_seen Self.Source.Source Self.Sink.Sink link)) }
        ensures waiting { OnErr result ((seen self.new).waiting ≡ (seen self.old).waiting) }
        ensures closed { (seen self.new).closed ≡ (seen self.old).closed }
        ensures cause { HasCause (seen self.old).faults (seen self.new).faults result }
        ensures offers { (count : ℕ) → offers self.old (count + 1) → IsOk result × offers self.new count };

    /// Closes the open link, so that its peer gets what was written.
    fn close(&mut self, link: Both<Self::Source, Self::Sink>)
        requires { (seen self.old).live ≡ 1 }
        ensures live { (seen self.new).live ≡ 0 }
        ensures closed { Closes (seen self.old).closed (seen self.new).closed
            (link_seen Self.Source.Source Self.Sink.Sink link) }
        ensures port { (seen self.new).port ≡ (seen self.old).port }
        ensures accepted { (seen self.new).accepted ≡ (seen self.old).accepted }
        ensures waiting { (seen self.new).waiting ≡ (seen self.old).waiting }
        ensures faults { (seen self.new).faults ≡ (seen self.old).faults }
        ensures offers { (count : ℕ) → offers self.old count → offers self.new count };
}
