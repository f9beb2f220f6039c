//! How the menu is painted.
ghost use Rattle.std.specs.Prelude.{◌≡◌, OnOk};
ghost use Rattle.ui_menu.specs.MenuFrames.{with_menu, with_stage_of};

use crate::menu_mode::MenuMode;
use crate::stage::Stage;
use key_screen::Grid;
use mc_dialogs::ListBox;
use mc_text::NoMemory;
use std::alloc::Global;

impl MenuMode {
    /// Paints it over a screen: the list, or the line that asks a prompt. Where memory is wanting, a part of
    /// it may stand.
    pub fn paint(&self, alloc: Global, grid: &mut Grid) -> Result<(), NoMemory>
        ensures { OnOk result (grid.new ≡ with_menu self.now grid.old) }
    {
        paint_stage(grid, alloc, self.stage(), self.list())
    }
}

fn paint_stage(
    grid: &mut Grid,
    alloc: Global,
    stage: &Stage,
    list: &ListBox,
) -> Result<(), NoMemory>
    ensures { OnOk result (grid.new ≡ with_stage_of stage.now list.now grid.old) }
{
    match stage {
        Stage::Choosing => {
            list.paint(alloc, grid)?;
            Ok(())
        }
        Stage::Prompting(prompts) => {
            prompts.paint(alloc, grid)?;
            Ok(())
        }
        Stage::Ended => Ok(()),
    }
}
