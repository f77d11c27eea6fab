//! The kinds of sessions that are opened.
ghost use Rattle.std.specs.Prelude.{◌≡◌};
ghost use Rattle.desk_made.specs.Sessions.{kind_of};

/// What a session gives and confirms (`specs/Sessions.antt`).
#[derive(Clone, Copy, Debug, PartialEq, Eq)]
pub enum Kind {
    /// The first attribute, and the last as `off`.
    Certain,
    /// One attribute in the middle.
    Partial,
    /// The first attribute, and the last as `on`.
    Conflict,
    /// Nothing.
    Empty,
}

/// The kind of a draw.
pub fn kind_of(drawn: u32) -> Kind
    ensures { result ≡ kind_of drawn }
{
    match drawn % 4 {
        0 => Kind::Certain,
        1 => Kind::Partial,
        2 => Kind::Conflict,
        _ => Kind::Empty,
    }
}
