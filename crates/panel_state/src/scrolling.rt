//! Which rows are on the screen.
ghost use Rattle.std.specs.Prelude.{◌≡◌, ◌+◌, ◌<◌, ◌≤◌, ◌^◌};
ghost use Rattle.mc_dialogs.specs.ListKeys.{scrolled_to};
ghost use Rattle.panel_state.specs.Formats.{rows_shown};

use crate::format::Layout;

/// How many rows are on the screen, where a column has a page of so many.
pub fn rows_shown(layout: Layout, page: usize) -> usize
    requires { page < 2 ^ 16 }
    ensures value { result ≡ rows_shown layout page }
    ensures bound { result < 2 ^ 17 }
{
    match layout {
        Layout::Columns => page,
        Layout::Brief => page + page,
    }
}

/// The first row on the screen, of so many: the least change of the old one that shows a row.
pub fn scrolled(shown: usize, first: usize, row: usize) -> usize
    requires shown { shown < 2 ^ 17 }
    requires first { first < 2 ^ 60 }
    requires row { row < 2 ^ 60 }
    ensures value { result ≡ scrolled_to shown first row }
    ensures near { result ≤ row + 1 }
{
    if row < first {
        return row;
    }
    if first + shown <= row {
        return (row + 1).saturating_sub(shown);
    }
    first
}
