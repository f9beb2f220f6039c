//! How the boxes are painted.
ghost use Rattle.std.specs.Prelude.{◌≡◌, OnOk};
ghost use Rattle.panel_boxes.specs.Paintings.{with_panel_box};

use crate::panel_box::PanelBox;
use key_screen::Grid;
use mc_text::NoMemory;
use std::alloc::Global;

impl PanelBox {
    /// Paints it over a screen. Where memory is wanting, a part of it may stand.
    pub fn paint(&self, alloc: Global, grid: &mut Grid) -> Result<(), NoMemory>
        ensures { OnOk result (grid.new ≡ with_panel_box self.now grid.old) }
    {
        match self {
            PanelBox::Pending => Ok(()),
            PanelBox::Typed(_, line) => {
                line.paint(alloc, grid)?;
                Ok(())
            }
            PanelBox::Options(list) => {
                list.paint(alloc, grid)?;
                Ok(())
            }
        }
    }
}
