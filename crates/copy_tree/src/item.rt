//! What is at work.
use copy_file::FileCopy;
use copy_link::LinkCopy;
use mc_text::Path;

/// What is at work: a file or a link whose part stands; else the next name, or the end of a folder.
#[derive(Debug, Drop)]
pub enum ItemAtWork {
    Next,
    File(FileCopy),
    Link(LinkCopy),
    /// In the last steps: the part at this path could not be removed. It stays.
    Stays(Path),
}
