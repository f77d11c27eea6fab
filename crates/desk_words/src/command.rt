//! What a request asks.
use crate::clerk_work::ClerkWork;
use crate::desk_look::DeskLook;
use crate::look::Look;
use crate::rows::clerk::Digest;
use crate::steward_work::StewardWork;
use desk_base::Str;

/// The number of a write among its caller's, 1 to 999,999,999,999, and the digest by which it is known when it
/// comes again.
#[derive(Clone, Copy, Debug, PartialEq, Eq)]
pub struct Ticket {
    pub number: u64,
    pub digest: Digest,
}

/// A request.
#[derive(Debug, Drop)]
pub enum Command {
    /// A write of the steward.
    Steward(Ticket, StewardWork),
    /// A write of the clerk with this name.
    Clerk(Str, Ticket, ClerkWork),
    /// A look of the clerk with this name, which changes nothing.
    Look(Str, Look),
    /// A look at the desk, by no clerk, which changes nothing.
    Desk(DeskLook),
}
