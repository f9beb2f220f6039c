//! What a search answers.
use mc_text::Path;
use tree_trait::TreeError;

/// An answer of a search.
#[derive(Debug, Drop)]
pub enum Found {
    /// What stands at this path is looked for.
    Path(Path),
    /// A look, a listing or a read at this path was refused.
    Skipped(Path, TreeError),
    /// Nothing is left.
    End,
}
