//! The system's errors by the names that a tree has for them.
ghost use Rattle.std.specs.Prelude.{◌≡◌, Ok, Err, MatchResult};
ghost use Rattle.std.specs.IoError.{error_kind};
ghost use Rattle.host_devices.specs.Causes.{cause_of_kind, naming_cause_of_kind};

use std::io;
use std::io::ErrorKind;
use tree_trait::TreeError;

/// What an error of the system means. One that has no name of its own is a fault.
pub fn cause_of(error: &io::Error) -> TreeError
    ensures { result ≡ cause_of_kind (error_kind error.now) }
{
    match error.kind() {
        ErrorKind::NotFound => TreeError::Missing,
        ErrorKind::NotADirectory => TreeError::NotFolder,
        ErrorKind::PermissionDenied | ErrorKind::ReadOnlyFilesystem => TreeError::Denied,
        ErrorKind::AlreadyExists => TreeError::Exists,
        ErrorKind::IsADirectory => TreeError::IsFolder,
        ErrorKind::DirectoryNotEmpty => TreeError::NotEmpty,
        ErrorKind::ResourceBusy => TreeError::Mounted,
        ErrorKind::CrossesDevices => TreeError::CrossMount,
        ErrorKind::StorageFull | ErrorKind::QuotaExceeded => TreeError::NoSpace,
        ErrorKind::OutOfMemory => TreeError::Memory,
        _ => TreeError::Fault,
    }
}

/// What an error of a renaming, or of the removal of a folder, means.
pub fn naming_cause_of(error: &io::Error) -> TreeError
    ensures { result ≡ naming_cause_of_kind (error_kind error.now) }
{
    match error.kind() {
        ErrorKind::InvalidInput => TreeError::IntoItself,
        ErrorKind::AlreadyExists => TreeError::NotEmpty,
        _ => cause_of(error),
    }
}

/// What the system answered, with its error by a tree's name.
pub fn answer_of<T>(answer: io::Result<T>) -> Result<T, TreeError>
    ensures { MatchResult answer (λ value. result ≡ Ok value)
        (λ error. result ≡ Err (cause_of_kind (error_kind error))) }
{
    match answer {
        Ok(value) => Ok(value),
        Err(error) => Err(cause_of(&error)),
    }
}
