//! The title line of a panel: a text in a line of `-`.
ghost use Rattle.std.specs.Prelude.{◌≡◌, ◌+◌, ◌-◌, string_bytes, IfOk};
ghost use Rattle.screen_frame.specs.Pieces.{cut_text, edge};

use mc_text::{NoMemory, Text, columns_of, push_run};
use std::alloc::{AllocError, Global};

/// The text, or where it takes more columns than these, what `fit` leaves of it and `~`.
pub fn cut(alloc: Global, text: &str, columns: usize) -> Result<Text, NoMemory>
    ensures { IfOk result (λ line. line ≡ cut_text text.now columns) }
{
    if columns_of(text) <= columns {
        return Text::from_str(alloc, text);
    }
    let mut line = String::new(alloc);
    push_run(&mut line, text, columns.saturating_sub(1))?;
    line.push('~')?;
    Ok(Text(line))
}

/// The first and the last line of a pane.
pub fn edge_of(alloc: Global, inside: usize) -> Result<String, AllocError>
    ensures { IfOk result (λ line. string_bytes line ≡ edge inside) }
{
    let mut line = String::from_str(alloc, "+")?;
    for _ in 0..inside {
        line.push('-')?;
    }
    line.push('+')?;
    Ok(line)
}
