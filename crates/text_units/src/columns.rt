//! The columns of a unit, and whether it shows as itself.
ghost use Rattle.std.specs.Prelude.{◌≡◌, ◌≤◌, true, false, MatchOption, IfSome};
ghost use Rattle.std.specs.Str.{chars};
ghost use Rattle.std.specs.List.{list_any};
ghost use Rattle.std.specs.Char.{is_control};
ghost use Rattle.mc_text.specs.Drawn.{is_drawable};
ghost use Rattle.mc_text.specs.Fit.{cluster_columns};
ghost use Rattle.text_units.specs.Units.{is_shown, unit_columns};

use std::str;
use unicode_width::UnicodeWidthStr;

/// The columns of a unit that begins in this column.
#[tactic(auto, unfolding(crate::specs::Units::unit_columns))]
pub fn unit_columns(column: usize, unit: &[u8]) -> usize
    ensures value { result ≡ unit_columns column unit.now }
    ensures some { 1 ≤ result }
    ensures bound { result ≤ 8 }
{
    if unit == b"\t".as_slice() {
        return 8 - column % 8;
    }
    match shown(unit) {
        Some(text) => columns_of(text),
        None => 1,
    }
}

/// A unit that shows as itself: a text of one or two columns without a control character.
pub fn shown(unit: &[u8]) -> Option<&str>
    ensures text { MatchOption result (is_shown unit.now ≡ false)
        (λ text. (is_shown unit.now ≡ true) × (text.now ≡ unit.now)) }
    ensures some { IfSome result (λ text. 1 ≤ cluster_columns text.now) }
    ensures narrow { IfSome result (λ text. cluster_columns text.now ≤ 2) }
{
    match str::from_utf8(unit) {
        Ok(text) => drawable(text),
        Err(_) => None,
    }
}

/// A text, if it can be drawn as it is.
#[tactic(auto, using(crate::proofs::UnitLemmas::drawable_narrow, crate::proofs::UnitLemmas::drawable_wide))]
fn drawable(text: &str) -> Option<&str>
    ensures same { MatchOption result (is_drawable text.now ≡ false)
        (λ same. (is_drawable text.now ≡ true) × (same.now ≡ text.now)) }
    ensures some { IfSome result (λ same. 1 ≤ cluster_columns same.now) }
    ensures narrow { IfSome result (λ same. cluster_columns same.now ≤ 2) }
{
    if is_drawable(text) { Some(text) } else { None }
}

#[tactic(auto, unfolding(mc_text::specs::Drawn::is_drawable))]
fn is_drawable(text: &str) -> bool
    ensures { result ≡ is_drawable text.now }
{
    let columns = columns_of(text);
    1 <= columns && columns <= 2 && !has_control(text)
}

/// The columns that a terminal gives a text.
#[tactic(auto, unfolding(mc_text::specs::Fit::cluster_columns))]
fn columns_of(text: &str) -> usize
    ensures { result ≡ cluster_columns text.now }
{
    text.width()
}

fn has_control(text: &str) -> bool
    ensures { result ≡ list_any is_control (chars text.now) }
{
    text.chars().any(|c| c.is_control())
}
