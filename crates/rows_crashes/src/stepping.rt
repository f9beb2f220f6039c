//! One job over a tree, step by step.
use copy_move::{Dirty, PartTest, Run};
use job_reports::is_end;
use mc_text::Path;
use rows_page::Page;
use tree_trait::Tree;

/// No other job is live, so no path is claimed.
struct NoClaims;

impl PartTest for NoClaims {
    ghost use Rattle.std.specs.Prelude.{true};

    ghost is_free = { λ claims path. true };

    fn free(&self, _path: &Path) -> bool {
        true
    }
}

/// Works a job to its end, which comes in at most 16 steps. One in trouble is aborted.
pub fn work_off<T: Tree>(page: &mut Page, tree: &mut T, dirty: &mut Dirty, run: &mut Run) {
    for _ in 0..16 {
        if run.waits() {
            run.abort();
            continue;
        }
        let stepped = run.step(page.alloc(), tree, &NoClaims, dirty);
        if is_end(&stepped.did) {
            return;
        }
    }
    page.fail();
}
