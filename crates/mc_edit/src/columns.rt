//! The places and the columns of a line.
ghost use Rattle.std.specs.Prelude.{◌≡◌, ◌*◌, ◌<◌, ◌≤◌, ◌^◌, length};
ghost use Rattle.mc_edit.specs.Units.{units, end_after, start_before};
ghost use Rattle.mc_edit.specs.Columns.{column_of, place_in_column};

use crate::units::units_of;
use text_units::unit_columns;

/// The start of the last unit that begins before the place.
pub fn start_before(line: &[u8], at: usize) -> usize
    ensures value { result ≡ start_before 0 at (units line.now) }
    ensures low { result ≤ at }
{
    let mut start = 0;
    for unit in units_of(line) {
        let end = start + unit.len();
        if end >= at {
            break;
        }
        start = end;
    }
    start
}

/// The end of the unit that holds the place, or the end of the line.
pub fn end_after(line: &[u8], at: usize) -> usize
    requires { at ≤ length line.now }
    ensures value { result ≡ end_after 0 at (units line.now) }
    ensures low { at ≤ result }
    ensures high { result ≤ length line.now }
{
    let mut end = 0;
    for unit in units_of(line) {
        end += unit.len();
        if at < end {
            break;
        }
    }
    end
}

/// The column in which the unit that holds the place begins, or the columns of the line.
pub fn column_of(line: &[u8], at: usize) -> usize
    requires { length line.now < 2 ^ 60 }
    ensures value { result ≡ column_of 0 0 at (units line.now) }
    ensures bound { result ≤ 8 * length line.now }
{
    let mut start = 0;
    let mut column = 0;
    for unit in units_of(line) {
        start += unit.len();
        if at < start {
            break;
        }
        column += unit_columns(column, unit);
    }
    column
}

/// The start of the last unit whose column isn't above the wanted one, or the end of a line that is shorter.
pub fn place_in_column(line: &[u8], wanted: usize) -> usize
    requires { length line.now < 2 ^ 60 }
    ensures value { result ≡ place_in_column 0 0 wanted (units line.now) }
    ensures high { result ≤ length line.now }
{
    let mut start = 0;
    let mut column = 0;
    for unit in units_of(line) {
        column += unit_columns(column, unit);
        if column > wanted {
            break;
        }
        start += unit.len();
    }
    start
}
