//! What is in sight of a unit, put behind a row.
ghost use Rattle.std.specs.Prelude.{◌≡◌, ◌+◌, ◌<◌, ◌^◌, ◌++◌, string_bytes, IfOk};
ghost use Rattle.text_units.specs.Units.{columns_in_sight, piece_in_sight, unit_text};

use crate::columns::{shown, unit_columns};
use mc_text::push_blanks;
use std::alloc::AllocError;

/// The columns that are in sight.
#[derive(Clone, Copy)]
pub struct Sight {
    pub left: usize,
    pub right: usize,
}

/// Puts what is in sight of a unit behind the row.
#[tactic(auto, unfolding(crate::specs::Units::piece_in_sight))]
pub fn push_piece(
    row: &mut String,
    sight: Sight,
    column: usize,
    unit: &[u8],
) -> Result<(), AllocError>
    requires small { column < 2 ^ 63 }
    requires narrow { sight.right < 2 ^ 60 }
    ensures { IfOk result (λ _. string_bytes row.new
        ≡ string_bytes row.old ++ piece_in_sight sight.left sight.right column unit.now) }
{
    let columns = unit_columns(column, unit);
    let in_sight = columns_in_sight(sight, column, columns);
    if in_sight == columns {
        push_unit(row, columns, unit)
    } else {
        push_blanks(row, in_sight)
    }
}

/// How many columns of a unit are in sight.
fn columns_in_sight(sight: Sight, column: usize, columns: usize) -> usize
    requires { column + columns < 2 ^ 64 }
    ensures { result ≡ columns_in_sight sight.left sight.right column columns }
{
    sight
        .right
        .min(column + columns)
        .saturating_sub(sight.left.max(column))
}

/// A unit as it is, blanks for a tab, and else a dot.
#[tactic(auto, unfolding(crate::specs::Units::unit_text))]
fn push_unit(row: &mut String, columns: usize, unit: &[u8]) -> Result<(), AllocError>
    ensures { IfOk result (λ _. string_bytes row.new
        ≡ string_bytes row.old ++ unit_text columns unit.now) }
{
    if unit == b"\t".as_slice() {
        return push_blanks(row, columns);
    }
    match shown(unit) {
        Some(text) => row.push_str(text),
        None => row.push_str("."),
    }
}
