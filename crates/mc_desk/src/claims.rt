//! Which paths of parts may be taken.
use job_reports::PartTest;
use mc_text::Path;

/// No other job is live, so no path is claimed.
pub struct NoClaims;

impl PartTest for NoClaims {
    ghost use Rattle.std.specs.Prelude.{true};

    ghost is_free = { λ claims path. true };

    fn free(&self, _path: &Path) -> bool {
        true
    }
}
