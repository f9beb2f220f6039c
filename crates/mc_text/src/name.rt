//! A file name, as POSIX has it: not empty, at most 255 bytes, no slash, no NUL, not `.`
//! and not `..`. It is UTF-8.
ghost use Rattle.std.specs.Prelude.{◌≡◌, ◌≢◌, ◌+◌, ◌<◌, ◌^◌, length, None, Some, IfOk, IfErr};
ghost use Rattle.std.specs.Str.{bytes_eq};
ghost use Rattle.std.specs.Ordering.{nat_cmp};
ghost use Rattle.std.specs.Cmp.Lexicographic.{slice_cmp};
ghost use Rattle.mc_text.specs.Kept.{bytes_in};
ghost use Rattle.mc_text.specs.Names.{name_fault, first_bad_byte};

use crate::error::{NameError, NoMemory};
use arrayvec::ArrayString;
use std::alloc::{AllocError, Global};
use std::cmp::Ordering;
use std::marker::Model;

/// The most bytes that a name may have.
pub const NAME_BYTES: usize = 255;

/// A file name. Contracts see the list of its bytes.
#[derive(Debug, Drop)]
pub struct Name {
    text: NameText,
}

impl Model for Name {
    ghost use Rattle.std.specs.Prelude.{◌≡◌, List, ℕ, None};
    ghost use Rattle.mc_text.specs.Kept.{bytes_in};
    ghost use Rattle.mc_text.specs.Names.{name_fault};

    ghost Value = { List ℕ };

    ghost view = { λ n. bytes_in n.text };

    ghost invariant = { λ n. name_fault (bytes_in n.text) ≡ None };
}

/// Where a name's bytes lie. Most names are short, and take no memory of their own.
#[derive(Debug, Drop)]
enum NameText {
    /// In the value itself.
    Short(ArrayString<16>),
    /// On the heap.
    Long(String),
}

impl NameText {
    /// The same text once more.
    fn from_str(alloc: Global, text: &str) -> Result<NameText, AllocError>
        ensures { IfOk result (λ kept. bytes_in kept ≡ text.now) }
    {
        match ArrayString::from(text) {
            Ok(short) => Ok(NameText::Short(short)),
            Err(_) => Ok(NameText::Long(String::from_str(alloc, text)?)),
        }
    }

    fn as_str(&self) -> &str
        ensures { result.now ≡ bytes_in self.now }
    {
        match self {
            NameText::Short(text) => text.as_str(),
            NameText::Long(text) => text.as_str(),
        }
    }
}

impl Name {
    /// Reads a name. The first of the faults decides, in the order of `NameError`; of a slash and a NUL
    /// the one that stands first.
    pub fn new(alloc: Global, text: &str) -> Result<Name, NameError>
        ensures read { IfOk result (λ name. name ≡ text.now) }
        ensures sound { IfOk result (λ _. name_fault text.now ≡ None) }
        ensures refused { IfErr result (λ e. e ≢ NameError.Memory → name_fault text.now ≡ Some e) }
    {
        match fault_of(text) {
            Some(fault) => Err(fault),
            None => Ok(Name {
                text: NameText::from_str(alloc, text)?,
            }),
        }
    }

    /// The name's text.
    pub fn text(&self) -> &str
        ensures text { result.now ≡ self.now }
        ensures sound { name_fault self.now ≡ None }
    {
        self.text.as_str()
    }

    /// The same name once more.
    pub fn copy(&self, alloc: Global) -> Result<Name, NoMemory>
        ensures { IfOk result (λ name. name ≡ self.now) }
    {
        Ok(Name {
            text: NameText::from_str(alloc, self.text.as_str())?,
        })
    }

    /// Whether two names are one.
    pub fn same(&self, other: &Name) -> bool
        ensures { result ≡ bytes_eq self.now other.now }
    {
        self.text.as_str() == other.text.as_str()
    }

    /// How two names stand in the order of their bytes.
    pub fn order(&self, other: &Name) -> Ordering
        ensures { result ≡ slice_cmp nat_cmp self.now other.now }
    {
        self.text.as_str().cmp(other.text.as_str())
    }
}

/// What keeps a text from being a name, if anything does.
fn fault_of(text: &str) -> Option<NameError>
    ensures fault { result ≡ name_fault text.now }
{
    if text.is_empty() {
        return Some(NameError::Empty);
    }
    if text.len() > NAME_BYTES {
        return Some(NameError::TooLong(text.len()));
    }
    if let Some(fault) = byte_fault(text.as_bytes(), 0) {
        return Some(fault);
    }
    if text == "." || text == ".." {
        return Some(NameError::Dots);
    }
    None
}

/// The first slash or NUL of a text whose bytes are counted from `at`.
fn byte_fault(bytes: &[u8], at: usize) -> Option<NameError>
    requires { at + length bytes.now < 2 ^ 64 }
    ensures { result ≡ first_bad_byte at bytes.now }
{
    match bytes {
        [] => None,
        [b'/', ..] => Some(NameError::Slash(at)),
        [0, ..] => Some(NameError::Nul(at)),
        [_, rest @ ..] => byte_fault(rest, at + 1),
    }
}
