//! Which of the images that a crash may leave is taken.
use mc_text::Bits;

/// What a crash leaves: which of the unsynced changes of names and modes stand, in the order of these
/// changes, and what the files with unsynced writes hold. A change for which there is no bit is lost.
#[derive(Debug, Drop)]
pub struct Choice {
    pub keep: Bits,
    pub fill: Fill,
}

/// What a file with unsynced writes holds after a crash: what was written, no byte, or as many zeros or
/// bytes of junk as were written.
#[derive(Clone, Copy, Debug, PartialEq, Eq)]
pub enum Fill {
    Written,
    Nothing,
    Zeros,
    Junk(u8),
}
