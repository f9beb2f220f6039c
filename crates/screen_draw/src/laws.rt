//! What holds of every terminal.
ghost use Rattle.std.specs.Prelude.{◌≡◌, ℕ, [], ◌<◌, ◌^◌};
ghost use Rattle.key_screen.specs.Grids.{blank_grid};
ghost use Rattle.screen_draw.specs.Drawings.{Shows};

/// A terminal that was given no bytes shows a blank screen of its size.
pub fn a_blank_terminal_shows_a_blank_screen()
    ensures { (lines columns : ℕ) → Shows [] (blank_grid lines columns) }
{}
