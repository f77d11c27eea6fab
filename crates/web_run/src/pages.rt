//! What has the pages of a program.
ghost use Rattle.std.specs.Prelude.{◌≡◌, List};
ghost use Rattle.http_desk.specs.declared.front.Page.{Page as PageOf};

use http_desk::Page;

/// What has the pages of a program.
pub trait PageTable {
    /// The pages, in their order.
    ghost listed: { Self → List PageOf };

    /// The same.
    fn pages(&self) -> &[Page]
        ensures { result.now ≡ listed self.now };
}
