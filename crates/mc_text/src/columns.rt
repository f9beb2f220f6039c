//! A text made as wide as its place on the screen.
ghost use Rattle.std.specs.Prelude.{◌≡◌, ◌+◌, ◌-◌, ◌*◌, ◌≤◌, ◌++◌, true, length, sum_by, string_bytes, IfOk};
ghost use Rattle.std.specs.List.{concat};
ghost use Rattle.unicode_segmentation.specs.Grapheme.{graphemes};
ghost use Rattle.mc_text.specs.Fit.{cluster_columns, columns_in, run_within};
ghost use Rattle.mc_text.specs.Fit.{blanks, fitted_text, IsLongestRun};

use crate::error::NoMemory;
use crate::text::Text;
use std::alloc::{AllocError, Global};
use unicode_segmentation::UnicodeSegmentation;
use unicode_width::UnicodeWidthStr;

/// The text in exactly so many columns: filled with blanks, or cut between clusters and ended by `~`.
/// With no columns it is empty.
#[tactic(auto, using(crate::proofs::Runs::longest_run))]
pub fn fit(alloc: Global, text: &str, columns: usize) -> Result<Text, NoMemory>
    ensures fitted { IfOk result (λ line. line ≡ fitted_text text.now columns) }

    // What a cut leaves is the longest run of clusters beside which there is room for the `~`.
    ensures longest { IsLongestRun (columns - 1) (graphemes true text.now)
        (run_within (columns - 1) (graphemes true text.now)) }
{
    let mut line = String::new(alloc);
    if columns == 0 {
        return Ok(Text(line));
    }
    let wanted = columns_of(text);
    if wanted <= columns {
        line.push_str(text)?;
        push_blanks(&mut line, columns - wanted)?;
        return Ok(Text(line));
    }
    let used = push_run(&mut line, text, columns - 1)?;
    line.push('~')?;
    push_blanks(&mut line, columns - (used + 1))?;
    Ok(Text(line))
}

/// The columns that a text takes: the sum of its clusters' widths.
pub fn columns_of(text: &str) -> usize
    ensures { result ≡ columns_in text.now }
{
    let mut total = 0;
    for cluster in text.graphemes(true) {
        total += cluster_columns_of(cluster);
    }
    total
}

/// The columns of one cluster.
pub(crate) fn cluster_columns_of(cluster: &str) -> usize
    ensures value { result ≡ cluster_columns cluster.now }
    ensures bound { result ≤ 2 * length cluster.now }
{
    cluster.width()
}

/// Puts the longest run of clusters that fits the room behind the line, and returns its columns.
pub fn push_run(line: &mut String, text: &str, room: usize) -> Result<usize, AllocError>
    ensures line { IfOk result (λ _. string_bytes line.new
        ≡ string_bytes line.old ++ concat (run_within room (graphemes true text.now))) }
    ensures value { IfOk result (λ n. n
        ≡ sum_by cluster_columns (run_within room (graphemes true text.now))) }
    ensures bound { IfOk result (λ n. n ≤ room) }
{
    let mut left = room;
    for cluster in text.graphemes(true) {
        let columns = cluster_columns_of(cluster);
        if columns > left {
            break;
        }
        line.push_str(cluster)?;
        left -= columns;
    }
    Ok(room - left)
}

/// Puts so many blanks behind the line.
pub fn push_blanks(line: &mut String, count: usize) -> Result<(), AllocError>
    ensures { IfOk result (λ _. string_bytes line.new ≡ string_bytes line.old ++ blanks count) }
{
    for _ in 0..count {
        line.push(' ')?;
    }
    Ok(())
}
