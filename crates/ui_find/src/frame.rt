//! What is painted over a screen.
ghost use Rattle.std.specs.Prelude.{◌≡◌, ◌<◌, ◌^◌, map, IfOk, OnOk};
ghost use Rattle.mc_dialogs.specs.Boxes.{columns_inside, with_box};
ghost use Rattle.ui_words.specs.PathLines.{path_line};
ghost use Rattle.ui_find.specs.FindFrames.{found_lines, painted_search, with_find};

use crate::asking::Asking;
use crate::listing::Listing;
use crate::mode::{FindMode, page_of};
use crate::title::list_title;
use key_screen::Grid;
use mc_dialogs::{paint_list, rows_from};
use mc_text::{NoMemory, Path, Text};
use std::alloc::Global;
use std::convert::AsStr;
use ui_words::{columns_in_box, path_line};

impl FindMode {
    /// Paints it over a screen: the line that asks, or the list. It reads no tree, and takes the time of
    /// what is shown. Where memory is wanting, a part of it may stand.
    pub fn paint(&self, alloc: Global, grid: &mut Grid) -> Result<(), NoMemory>
        ensures { OnOk result (grid.new ≡ with_find self.now grid.old) }
    {
        paint_over(
            grid,
            alloc,
            self.asking(),
            page_of(self.lines()),
            self.listing(),
        )
    }
}

fn paint_over(
    grid: &mut Grid,
    alloc: Global,
    asking: &Option<Asking>,
    page: usize,
    listing: &Listing,
) -> Result<(), NoMemory>
    requires { page < 2 ^ 16 }
    ensures { OnOk result (grid.new ≡ painted_search asking.now page listing.now grid.old) }
{
    match asking {
        None => paint_found(grid, alloc, page, listing),
        Some(asking) => {
            asking.line.paint(alloc, grid)?;
            Ok(())
        }
    }
}

fn paint_found(
    grid: &mut Grid,
    alloc: Global,
    page: usize,
    listing: &Listing,
) -> Result<(), NoMemory>
    requires { page < 2 ^ 16 }
    ensures { OnOk result
        (grid.new ≡ with_box grid.old (found_lines (columns_inside grid.old.columns) page listing.now)) }
{
    let title = list_title(alloc, listing)?;
    let shown = rows_from(listing.findings().found(), listing.first(), page);
    let rows = path_rows(alloc, columns_in_box(grid), shown)?;
    paint_list(
        grid,
        alloc,
        title.as_str(),
        &rows,
        listing.first(),
        listing.current(),
    )
}

/// Some paths in rows of so many columns.
fn path_rows(alloc: Global, columns: usize, paths: &[Path]) -> Result<Vec<Text>, NoMemory>
    ensures { IfOk result (λ rows. rows.items ≡ map (path_line columns) paths.now) }
{
    let mut rows = Vec::new(alloc);
    for path in paths {
        rows.push(path_line(alloc, path, columns)?)?;
    }
    Ok(rows)
}
