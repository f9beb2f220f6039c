//! How the box is painted.
ghost use Rattle.std.specs.Prelude.{◌≡◌, ◌<◌, ◌^◌, length, take, drop, IfOk, OnOk};
ghost use Rattle.ui_hotlist.specs.HotlistBoxes.{items_shown, page_of as rows_on, seen};
ghost use Rattle.ui_hotlist.specs.HotlistFrames.{with_hotlist};
ghost use Rattle.ui_hotlist.specs.HotlistRows.{labels};

use crate::hotlist_box::HotlistBox;
use crate::labels::labels_of;
use key_screen::Grid;
use mc_dialogs::{paint_list, rows_from};
use mc_text::{NoMemory, Text};
use std::alloc::Global;

impl HotlistBox {
    /// Paints it over a screen. It takes the time of the rows that it shows. Where memory is wanting, a part
    /// of it may stand.
    pub fn paint(&self, alloc: Global, grid: &mut Grid) -> Result<(), NoMemory>
        ensures { OnOk result (grid.new ≡ with_hotlist (seen self.now) grid.old) }
    {
        let cut = self.cut();
        let rows = self.rows(alloc, cut.first)?;
        paint_list(grid, alloc, "Hotlist", &rows, cut.first, cut.current)
    }

    /// The labels that are shown, from a position on.
    fn rows(&self, alloc: Global, first: usize) -> Result<Vec<Text>, NoMemory>
        ensures value { IfOk result (λ rows. rows.items
            ≡ take (rows_on (seen self.now)) (drop first (labels (items_shown (seen self.now))))) }
        ensures count { IfOk result (λ rows. length rows.items < 2 ^ 16) }
    {
        labels_of(alloc, rows_from(self.items(), first, self.page()))
    }
}
