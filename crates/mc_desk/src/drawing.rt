//! How much a drawing draws.
ghost use Rattle.std.specs.Prelude.{◌≡◌};
ghost use Rattle.mc_desk.specs.Redrawing.{asks_anew, is_anew};

use key_screen::{Base, Key};

/// How much a drawing draws.
#[derive(Clone, Copy, Debug, Drop, PartialEq, Eq)]
pub enum Drawing {
    /// What differs from the frame before; of the first frame all.
    Changes,
    /// All, behind a clearing, since others may have written on the terminal.
    Anew,
}

/// What a key asks of the drawing behind it: C-l asks for all.
pub fn drawing_after(key: Key) -> Drawing
    ensures { is_anew result ≡ asks_anew key }
{
    if key.meta {
        return Drawing::Changes;
    }
    match key.base {
        Base::Ctrl(b'l') => Drawing::Anew,
        _ => Drawing::Changes,
    }
}
