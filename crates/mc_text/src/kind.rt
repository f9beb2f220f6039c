//! The kinds of things that a folder holds.

/// What a thing is: a file, a folder, a symbolic link, or anything else (a device, a pipe, a socket).
#[derive(Clone, Copy, Debug, PartialEq, Eq)]
pub enum Kind {
    File,
    Folder,
    Link,
    Other,
}
