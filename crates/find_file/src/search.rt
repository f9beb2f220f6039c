//! What is looked for.
ghost use Rattle.std.specs.Prelude.{◌≡◌};
ghost use Rattle.find_file.specs.FoundList.{is_by_name, is_hidden, leaves_out};

use mc_text::{Bytes, Name};
use tagging::Pattern;

/// What is looked for: a pattern for the name, and bytes that a file has to hold, where there are
/// any. Where it isn't recursive only the children of the start are met, and without `hidden` no
/// name that begins with a dot.
#[derive(Debug, Drop)]
pub struct Search {
    pub name: Pattern,
    pub content: Bytes,
    pub recursive: bool,
    pub hidden: bool,
}

impl Search {
    /// Whether the name alone decides.
    pub fn is_by_name(&self) -> bool
        ensures { result ≡ is_by_name self.now }
    {
        self.content.0.is_empty()
    }

    /// Whether a name is passed over, with all below it.
    pub fn leaves_out(&self, name: &Name) -> bool
        ensures { result ≡ leaves_out self.now name.now }
    {
        !self.hidden && is_hidden(name.text().as_bytes())
    }
}

/// Whether a name begins with a dot.
fn is_hidden(name: &[u8]) -> bool
    ensures { result ≡ is_hidden name.now }
{
    match name {
        [first, ..] => *first == b'.',
        [] => false,
    }
}
