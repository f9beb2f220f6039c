//! A text as it is drawn, so that no cell of a row shifts.
ghost use Rattle.std.specs.Prelude.{◌≡◌, true, All, IfOk};
ghost use Rattle.std.specs.List.{list_any};
ghost use Rattle.std.specs.Str.{chars};
ghost use Rattle.std.specs.Char.{is_control};
ghost use Rattle.mc_text.specs.Drawn.{is_drawable, drawn_cluster, drawn_clusters, drawn_text};

use crate::columns::cluster_columns_of;
use crate::error::NoMemory;
use crate::text::Text;
use std::alloc::Global;
use unicode_segmentation::UnicodeSegmentation;

/// The text with a `?` in place of each grapheme cluster that holds a control character, or
/// whose width is 0 or above 2.
#[tactic(auto, using(crate::proofs::Drawables::each_is_drawable))]
pub fn drawn(alloc: Global, text: &str) -> Result<Text, NoMemory>
    ensures drawn { IfOk result (λ line. line ≡ drawn_text text.now) }

    // Each piece takes one or two columns, and holds no control character.
    ensures drawable { All (λ piece. is_drawable piece ≡ true) (drawn_clusters text.now) }
{
    let mut line = String::new(alloc);
    for cluster in text.graphemes(true) {
        line.push_str(drawn_cluster(cluster))?;
    }
    Ok(Text(line))
}

/// A cluster as it is drawn.
fn drawn_cluster(cluster: &str) -> &str
    ensures { result.now ≡ drawn_cluster cluster.now }
{
    if is_drawable(cluster) { cluster } else { "?" }
}

/// Whether a cluster is drawn as it is.
#[tactic(auto, unfolding(crate::specs::Drawn::is_drawable))]
fn is_drawable(cluster: &str) -> bool
    ensures { result ≡ is_drawable cluster.now }
{
    let columns = cluster_columns_of(cluster);
    1 <= columns && columns <= 2 && !has_control(cluster)
}

fn has_control(text: &str) -> bool
    ensures { result ≡ list_any is_control (chars text.now) }
{
    text.chars().any(|c| c.is_control())
}
