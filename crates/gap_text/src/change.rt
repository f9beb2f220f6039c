//! One change of a text.
use mc_text::Bytes;

/// At `at` the bytes `removed` gave way to `inserted`. The point stood at `before`, and then at `after`.
#[derive(Debug, Drop)]
pub struct Change {
    pub at: usize,
    pub removed: Bytes,
    pub inserted: Bytes,
    pub before: usize,
    pub after: usize,
}
