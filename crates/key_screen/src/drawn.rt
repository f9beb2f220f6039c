//! Text as a screen draws it: clusters of one column or two.
ghost use Rattle.std.specs.Prelude.{◌≡◌, ◌≤◌, ◌*◌, true, length, map, take, IfOk};
ghost use Rattle.unicode_segmentation.specs.Grapheme.{graphemes};
ghost use Rattle.key_screen.specs.DrawnText.{cluster_columns, is_drawable, is_blank, drawn_glyph};
ghost use Rattle.key_screen.specs.DrawnText.{glyph_columns, has_control, stands_alone};

use crate::cells::Glyph;
use mc_text::{NoMemory, Text};
use std::alloc::Global;
use std::convert::AsStr;
use unicode_segmentation::UnicodeSegmentation;
use unicode_width::UnicodeWidthStr;

/// The columns of a cluster.
pub fn columns_of(cluster: &str) -> usize
    ensures value { result ≡ cluster_columns cluster.now }
    ensures bound { result ≤ 2 * length cluster.now }
{
    cluster.width()
}

/// Whether a cluster is shown as it is, and not as `?`.
pub fn can_be_drawn(cluster: &str) -> bool
    ensures { result ≡ is_drawable cluster.now }
{
    let columns = columns_of(cluster);
    (columns == 1 || columns == 2) && !holds_control(cluster) && is_alone(cluster)
}

/// Whether a cluster holds a control character.
#[tactic(auto, unfolding(crate::specs::DrawnText::has_control))]
fn holds_control(cluster: &str) -> bool
    ensures { result ≡ has_control cluster.now }
{
    cluster.chars().any(|c| c.is_control())
}

/// Whether a text by itself is one cluster.
fn is_alone(cluster: &str) -> bool
    ensures { result ≡ stands_alone cluster.now }
{
    cluster.graphemes(true).count() == 1
}

/// What a cluster is drawn as.
pub fn glyph_of(alloc: Global, cluster: &str) -> Result<Glyph, NoMemory>
    ensures { IfOk result (λ glyph. glyph ≡ drawn_glyph cluster.now) }
{
    if !can_be_drawn(cluster) {
        return Ok(Glyph::Cluster(Text::from_str(alloc, "?")?));
    }
    if is_one_blank(cluster) {
        return Ok(Glyph::Blank);
    }
    Ok(Glyph::Cluster(Text::from_str(alloc, cluster)?))
}

/// Whether a cluster is a blank.
fn is_one_blank(cluster: &str) -> bool
    ensures { result ≡ is_blank cluster.now }
{
    matches!(cluster.as_bytes(), [b' '])
}

/// The columns of what a text is drawn as.
pub fn columns_of_glyph(glyph: &Glyph) -> usize
    ensures { result ≡ glyph_columns glyph.now }
{
    match glyph {
        Glyph::Cluster(text) => columns_of(text.as_str()),
        Glyph::Blank | Glyph::RightHalf => 1,
    }
}

/// What the first clusters of a text are drawn as, `count` at most.
pub fn drawn(alloc: Global, text: &str, count: usize) -> Result<Vec<Glyph>, NoMemory>
    ensures { IfOk result (λ glyphs. glyphs.items ≡ map drawn_glyph (take count (graphemes true text.now))) }
{
    let mut glyphs = Vec::new(alloc);
    for cluster in text.graphemes(true) {
        if glyphs.len() == count {
            break;
        }
        glyphs.push(glyph_of(alloc, cluster)?)?;
    }
    Ok(glyphs)
}
