//! Typed texts that begin at HOME.
ghost use Rattle.std.specs.Prelude.{◌≡◌};
ghost use Rattle.ui_plans.specs.Places.{is_below_home};

use text_scan::behind_word;

/// Whether a typed text stands for HOME, or for what lies below it.
pub(crate) fn is_below_home(typed: &str) -> bool
    ensures { result ≡ is_below_home typed.now }
{
    typed == "~" || behind_word(typed, "~/").is_some()
}
