//! The key bar in the last row.
ghost use Rattle.std.specs.Prelude.{◌≡◌, ◌+◌, ◌<◌, ◌≤◌, ◌^◌, ◌++◌, length, map, string_bytes, OnOk, IfOk};
ghost use Rattle.screen_frame.specs.KeyBars.{labels_of, labelled_keys, bar_text};

use mc_text::{NoMemory, Text, fit};
use std::alloc::Global;
use std::convert::AsStr;

/// What the function keys do.
#[derive(Clone, Copy)]
pub enum KeyBar {
    Panels,
    Viewer,
    Editor,
}

/// The labels of F1 to F10.
fn labels_of(bar: KeyBar) -> [&'static str; 10]
    ensures { map (λ label. label.now) result ≡ labels_of bar }
{
    match bar {
        KeyBar::Panels => [
            "Help", "Menu", "View", "Edit", "Copy", "RenMov", "Mkdir", "Delete", "PullDn", "Quit",
        ],
        KeyBar::Viewer => [
            "Help", "Wrap", "Quit", "Hex", "Goto", "", "Search", "", "", "Quit",
        ],
        KeyBar::Editor => [
            "Help", "Save", "Mark", "Replac", "Copy", "Move", "Search", "Delete", "", "Quit",
        ],
    }
}

/// Each key's number and its label, fitted to 6 columns, without gaps.
#[tactic(auto, unfolding(crate::specs::KeyBars::bar_text))]
pub fn bar_text(alloc: Global, bar: KeyBar) -> Result<Text, NoMemory>
    ensures { IfOk result (λ text. text ≡ bar_text bar) }
{
    let labels = labels_of(bar);
    let mut text = String::new(alloc);
    for (index, label) in labels.iter().enumerate() {
        let label = fit(alloc, label, 6)?;
        write!(text, "{}{}", index + 1, label.as_str())?;
    }
    Ok(Text(text))
}
