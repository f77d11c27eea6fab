//! When a peer of the program is to be answered.
use http_cut::{Routes, Step, first_step};
use tcp_door::ReadyTest;

/// Tells whether bytes hold a whole request, or such as never become one.
#[derive(Drop)]
pub struct RequestTest {
    pub routes: Routes,
}

impl ReadyTest for RequestTest {
    ghost use Rattle.std.specs.Prelude.{◌≡◌, false};
    ghost use Rattle.http_cut.specs.Cut.{IsOpen};

    ghost tells = { λ bytes ready. ready ≡ false → IsOpen bytes };

    fn is_ready(&self, bytes: &[u8]) -> bool {
        !matches!(first_step(&self.routes, bytes), Step::NeedMore(_))
    }
}
