//! What is viewed.
use mc_text::{Bytes, Path};

/// What is viewed: a file of a tree, or what a command put out.
#[derive(Debug, Drop)]
pub enum Subject {
    File(Path),
    Output(Bytes),
}
