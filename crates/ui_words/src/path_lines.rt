//! A path in a line of a box.
ghost use Rattle.std.specs.Prelude.{◌≡◌, ◌++◌, [], true, if◌then◌else◌};
ghost use Rattle.std.specs.Prelude.{string_bytes, IfOk, OnOk};
ghost use Rattle.std.specs.List.{concat};
ghost use Rattle.unicode_segmentation.specs.Grapheme.{graphemes};
ghost use Rattle.mc_text.specs.Fit.{cluster_columns};
ghost use Rattle.mc_dialogs.specs.Boxes.{columns_inside};
ghost use Rattle.ui_words.specs.PathLines.{cut_in_front as cut_in_front_of, end_within};
ghost use Rattle.ui_words.specs.PathLines.{path_line as line_of_path};

use key_screen::Grid;
use mc_text::{NoMemory, Path, Text, columns_of, drawn};
use std::alloc::{AllocError, Global};
use std::convert::AsStr;
use unicode_segmentation::UnicodeSegmentation;
use unicode_width::UnicodeWidthStr;

/// The columns of a line in a box on this screen.
pub fn columns_in_box(grid: &Grid) -> usize
    ensures value { result ≡ columns_inside grid.now.columns }
{
    usize::from(grid.columns()).saturating_sub(4).min(60)
}

/// A path as a line of so many columns shows it, whose end is what tells it from others.
pub fn path_line(alloc: Global, path: &Path, columns: usize) -> Result<Text, NoMemory>
    ensures { IfOk result (λ line. line ≡ line_of_path columns path.now) }
{
    let text = path.text(alloc)?;
    cut_in_front(alloc, text, columns)
}

/// A text that has room in so many columns, or `~` and as much of its end as has.
#[tactic(auto, unfolding(crate::specs::PathLines::cut_in_front))]
pub fn cut_in_front(alloc: Global, text: Text, columns: usize) -> Result<Text, NoMemory>
    ensures { IfOk result (λ line. line ≡ cut_in_front_of columns text) }
{
    let shown = drawn(alloc, text.as_str())?;
    if columns_of(shown.as_str()) <= columns {
        return Ok(text);
    }
    let mut line = String::from_str(alloc, "~")?;
    push_end(&mut line, shown.as_str(), columns.saturating_sub(1))?;
    Ok(Text(line))
}

/// Puts as much of a text's end behind the line as has room in so many columns.
fn push_end(line: &mut String, text: &str, room: usize) -> Result<(), AllocError>
    ensures { OnOk result
        (string_bytes line.new
        ≡ string_bytes line.old ++ concat (end_within room (graphemes true text.now))) }
{
    let mut left = columns_of(text);
    for cluster in text.graphemes(true) {
        push_where(line, cluster, left <= room)?;
        left -= columns_of_cluster(cluster);
    }
    Ok(())
}

/// Puts a cluster behind the line, if it has room there.
fn push_where(line: &mut String, cluster: &str, has_room: bool) -> Result<(), AllocError>
    ensures { OnOk result (string_bytes line.new
        ≡ string_bytes line.old ++ (if has_room then cluster.now else [])) }
{
    if has_room {
        line.push_str(cluster)?;
    }
    Ok(())
}

/// The columns of one cluster.
fn columns_of_cluster(cluster: &str) -> usize
    ensures { result ≡ cluster_columns cluster.now }
{
    cluster.width()
}
