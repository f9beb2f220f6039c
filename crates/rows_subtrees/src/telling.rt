//! What a step did, in words.
use job_reports::Did;
use rows_page::Page;
use rows_trees::tell_report;

/// So many reports are told whole; of later ones only troubles, skips and ends.
const TOLD: u32 = 24;

/// How many reports were told, and how many were not.
#[derive(Clone, Copy, Debug, Drop)]
pub struct Told {
    told: u32,
    left: u32,
}

impl Told {
    pub fn new() -> Told {
        Told { told: 0, left: 0 }
    }

    /// Whether the next report is told.
    fn takes(&mut self, counts: bool) -> bool {
        if self.told < TOLD || counts {
            self.told = self.told.saturating_add(1);
            return true;
        }
        self.left = self.left.saturating_add(1);
        false
    }

    /// How many reports were not told.
    pub fn finish(&self, page: &mut Page) {
        if self.left > 0 {
            page.tell(format_args!("  and {} more steps\n", self.left));
        }
    }
}

/// What a step did, and how many changing calls it made.
pub fn tell_step(page: &mut Page, told: &mut Told, did: &Did, calls: u64) {
    if told.takes(is_told_always(did)) {
        page.put("  ");
        tell_report(page, did);
        page.tell(format_args!(", calls {calls}\n"));
    }
}

fn is_told_always(did: &Did) -> bool {
    matches!(
        did,
        Did::Troubled(_) | Did::Skipped(_, _) | Did::Cleaned(_) | Did::Ended { .. }
    )
}

/// What a skip reports.
pub fn tell_skip(page: &mut Page, did: &Did) {
    page.put("  ");
    tell_report(page, did);
    page.put("\n");
}
