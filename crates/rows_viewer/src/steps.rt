//! The steps of a row.
use mc_viewer::ViewStep;

/// The step that a word names.
pub fn step_of(word: &str) -> Option<ViewStep> {
    if let Some(line) = word.strip_prefix("line:") {
        return Some(ViewStep::Line(line.parse().ok()?));
    }
    if let Some(byte) = word.strip_prefix("byte:") {
        return Some(ViewStep::Byte(byte.parse().ok()?));
    }
    plain_step(word)
}

fn plain_step(word: &str) -> Option<ViewStep> {
    match word {
        "down" => Some(ViewStep::Down),
        "up" => Some(ViewStep::Up),
        "page-down" => Some(ViewStep::PageDown),
        "page-up" => Some(ViewStep::PageUp),
        "home" => Some(ViewStep::Home),
        "end" => Some(ViewStep::End),
        "left" => Some(ViewStep::Left),
        "right" => Some(ViewStep::Right),
        "wrap" => Some(ViewStep::Wrap),
        "hex" => Some(ViewStep::Hex),
        _ => None,
    }
}
