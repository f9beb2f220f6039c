//! The size of the screen.
ghost use Rattle.std.specs.Prelude.{◌≡◌, ◌≤◌, IfSome};
ghost use Rattle.main_words.specs.Sizes.{number_within as number_said, size_said};

use crate::numbers::number_of;
use mc_text::Text;
use std::marker::Model;

/// The size of a screen: 10 to 200 lines of 40 to 400 columns.
#[derive(Debug, Drop)]
pub struct Size {
    lines: u16,
    columns: u16,
}

impl Model for Size {
    ghost use Rattle.std.specs.Prelude.{◌≤◌};
    ghost use Rattle.main_words.specs.Sizes.{ScreenSize};

    ghost Value = { ScreenSize };

    ghost view = { λ s. record { lines = s.lines; columns = s.columns } };

    ghost invariant = { λ s. (10 ≤ s.lines) × (s.lines ≤ 200) × (40 ≤ s.columns) × (s.columns ≤ 400) };
}

impl Size {
    /// The size that LINES and COLUMNS of the surroundings say: 24 by 80 where either is missing, can't be
    /// read, or is too small or too large.
    pub fn read(lines: &Option<Text>, columns: &Option<Text>) -> Size
        ensures { result ≡ size_said lines.now columns.now }
    {
        let Some(lines) = number_within(lines, 10, 200) else {
            return Size::usual();
        };
        let Some(columns) = number_within(columns, 40, 400) else {
            return Size::usual();
        };
        Size { lines, columns }
    }

    /// 24 lines of 80 columns.
    fn usual() -> Size
        ensures { result ≡ record { lines = 24; columns = 80 } }
    {
        Size {
            lines: 24,
            columns: 80,
        }
    }

    pub fn lines(&self) -> u16
        ensures value { result ≡ self.now.lines }
        ensures some { 10 ≤ result }
        ensures few { result ≤ 200 }
    {
        self.lines
    }

    pub fn columns(&self) -> u16
        ensures value { result ≡ self.now.columns }
        ensures some { 40 ≤ result }
        ensures few { result ≤ 400 }
    {
        self.columns
    }
}

/// The number of a text, where it has one that isn't below `least` nor above `most`.
fn number_within(text: &Option<Text>, least: u16, most: u16) -> Option<u16>
    ensures said { result ≡ number_said least most text.now }
    ensures within { IfSome result (λ n. (least ≤ n) × (n ≤ most)) }
{
    let Some(text) = text else {
        return None;
    };
    let Some(number) = number_of(text.0.as_str(), 3) else {
        return None;
    };
    match u16::try_from(number) {
        Ok(number) if least <= number && number <= most => Some(number),
        _ => None,
    }
}
