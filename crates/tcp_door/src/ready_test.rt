//! What tells when the bytes of a peer are to be answered. A clause sees what a test may tell of which bytes.
ghost use Rattle.std.specs.Prelude.{ℕ, Bool, List};

/// A test of the bytes that have come of a peer.
pub trait ReadyTest {
    /// What may be told of these bytes.
    ghost tells: { List ℕ → Bool → Type 0 };

    /// Whether these bytes are to be answered as they stand, whatever may come after them.
    fn is_ready(&self, bytes: &[u8]) -> bool
        ensures { tells bytes.now result };
}
