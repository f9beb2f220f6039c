//! Which paths a part may take.
ghost use Rattle.std.specs.Prelude.{◌≡◌, Bool};
ghost use Rattle.mc_text.specs.Routes.{Route};

use mc_text::Path;

/// Which paths a part may take: those on which no job has a claim.
pub trait PartTest {
    ghost is_free: { Self → Route → Bool };

    fn free(&self, path: &Path) -> bool
        ensures { result ≡ is_free self.now path.now };
}
