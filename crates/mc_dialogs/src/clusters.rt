//! A text cut between its clusters.
ghost use Rattle.std.specs.Prelude.{◌≡◌, ◌++◌, true, length, string_bytes, IfOk};
ghost use Rattle.unicode_segmentation.specs.Grapheme.{graphemes};
ghost use Rattle.mc_text.specs.Fit.{cluster_columns};
ghost use Rattle.mc_dialogs.specs.InputKeys.{first_clusters, later_clusters, before_last};
ghost use Rattle.mc_dialogs.specs.InputField.{left_out};

use mc_text::columns_of;
use std::alloc::{AllocError, Global};
use unicode_segmentation::UnicodeSegmentation;
use unicode_width::UnicodeWidthStr;

/// The first clusters of a text, so many, or all where it has fewer.
#[tactic(auto, using(crate::proofs::ClusterLemmas::take_next))]
pub fn first_clusters(alloc: Global, text: &str, count: usize) -> Result<String, AllocError>
    ensures { IfOk result (λ first. string_bytes first ≡ first_clusters count text.now) }
{
    let mut first = String::new(alloc);
    let mut left = count;
    for cluster in text.graphemes(true) {
        if left == 0 {
            break;
        }
        first.push_str(cluster)?;
        left -= 1;
    }
    Ok(first)
}

/// The text without its first clusters, so many.
pub fn later_clusters(alloc: Global, text: &str, count: usize) -> Result<String, AllocError>
    ensures { IfOk result (λ later. string_bytes later ≡ later_clusters count text.now) }
{
    let mut later = String::new(alloc);
    let mut left = count;
    for cluster in text.graphemes(true) {
        if left == 0 {
            later.push_str(cluster)?;
        } else {
            left -= 1;
        }
    }
    Ok(later)
}

/// How many clusters stand before the last one.
pub fn before_last(text: &str) -> usize
    ensures { result ≡ before_last text.now }
{
    text.graphemes(true).count().saturating_sub(1)
}

/// Two texts, one behind the other.
pub fn joined(alloc: Global, front: &str, end: &str) -> Result<String, AllocError>
    ensures { IfOk result (λ both. string_bytes both ≡ front.now ++ end.now) }
{
    let mut both = String::from_str(alloc, front)?;
    both.push_str(end)?;
    Ok(both)
}

/// How many clusters of a text are left out so that the others take at most so many columns.
pub fn left_out(text: &str, room: usize) -> usize
    ensures { result ≡ left_out room (graphemes true text.now) }
{
    let mut columns = columns_of(text);
    let mut count = 0;
    for cluster in text.graphemes(true) {
        if columns <= room {
            break;
        }
        columns -= columns_of_cluster(cluster);
        count += 1;
    }
    count
}

/// The columns of one cluster.
fn columns_of_cluster(cluster: &str) -> usize
    ensures { result ≡ cluster_columns cluster.now }
{
    cluster.width()
}
