//! What a rule asks of a thing.
ghost use Rattle.std.specs.Prelude.{◌≡◌, nat_eq, string_bytes, IfOk};
ghost use Rattle.std.specs.List.{ends_with};
ghost use Rattle.std.specs.Str.{bytes_eq};
ghost use Rattle.ext_rules.specs.Conditions.{folded_text, fits_file, fits_folder, is_met, is_included};

use mc_text::{Kind, NoMemory, Text};
use std::alloc::Global;
use std::convert::AsStr;
use tagging::Pattern;

/// Whether the case of ASCII letters counts.
#[derive(Clone, Copy, Drop)]
pub enum Case {
    Sensitive,
    Insensitive,
}

/// What a rule asks: of names that aren't of folders their end, the whole name, or that a pattern is found
/// in it; of folders that a pattern is found in their name; nothing that anything has; or nothing at all,
/// so that everything has it. An included rule is only looked up by its name.
#[derive(Drop)]
pub enum Condition {
    EndsWith { case: Case, text: Text },
    IsName { case: Case, text: Text },
    FoundInName(Pattern),
    FoundInFolder(Pattern),
    Nothing,
    Included { name: Text },
    Everything,
}

impl Condition {
    /// Whether a thing of this name and kind meets the condition.
    pub fn is_met(&self, alloc: Global, name: &str, kind: Kind) -> Result<bool, NoMemory>
        ensures { IfOk result (λ is. is ≡ is_met self.now kind name.now) }
    {
        match kind {
            Kind::Folder => self.fits_folder(alloc, name),
            Kind::File => self.fits_file(alloc, name),
            Kind::Link => self.fits_file(alloc, name),
            Kind::Other => self.fits_file(alloc, name),
        }
    }

    /// Whether a folder of this name meets it.
    fn fits_folder(&self, alloc: Global, name: &str) -> Result<bool, NoMemory>
        ensures { IfOk result (λ is. is ≡ fits_folder self.now name.now) }
    {
        match self {
            Condition::EndsWith { .. } => Ok(false),
            Condition::IsName { .. } => Ok(false),
            Condition::FoundInName(_) => Ok(false),
            Condition::FoundInFolder(pattern) => pattern.matches(alloc, name),
            Condition::Nothing => Ok(false),
            Condition::Included { .. } => Ok(false),
            Condition::Everything => Ok(true),
        }
    }

    /// Whether a thing of this name that is no folder meets it.
    fn fits_file(&self, alloc: Global, name: &str) -> Result<bool, NoMemory>
        ensures { IfOk result (λ is. is ≡ fits_file self.now name.now) }
    {
        match self {
            Condition::EndsWith { case, text } => ends_with(alloc, name, text, *case),
            Condition::IsName { case, text } => is_name(alloc, name, text, *case),
            Condition::FoundInName(pattern) => pattern.matches(alloc, name),
            Condition::FoundInFolder(_) => Ok(false),
            Condition::Nothing => Ok(false),
            Condition::Included { .. } => Ok(false),
            Condition::Everything => Ok(true),
        }
    }

    /// Whether it is that of the included rule of a name.
    pub fn includes(&self, name: &Text) -> bool
        ensures { result ≡ is_included name.now self.now }
    {
        match self {
            Condition::Included { name: own } => own.as_str() == name.as_str(),
            _ => false,
        }
    }
}

/// Whether a name ends with a text.
fn ends_with(alloc: Global, name: &str, text: &Text, case: Case) -> Result<bool, NoMemory>
    ensures { IfOk result
        (λ is. is ≡ ends_with nat_eq (folded_text case name.now) (folded_text case text.now)) }
{
    let name = folded(alloc, name, case)?;
    let text = folded(alloc, text.as_str(), case)?;
    Ok(name.as_bytes().ends_with(text.as_bytes()))
}

/// Whether a name is a text.
fn is_name(alloc: Global, name: &str, text: &Text, case: Case) -> Result<bool, NoMemory>
    ensures { IfOk result (λ is. is ≡ bytes_eq (folded_text case name.now) (folded_text case text.now)) }
{
    let name = folded(alloc, name, case)?;
    let text = folded(alloc, text.as_str(), case)?;
    Ok(name.as_str() == text.as_str())
}

/// A text as it is compared: where the case of letters doesn't count, with small ones.
fn folded(alloc: Global, text: &str, case: Case) -> Result<String, NoMemory>
    ensures { IfOk result (λ compared. string_bytes compared ≡ folded_text case text.now) }
{
    let mut compared = String::from_str(alloc, text)?;
    match case {
        Case::Sensitive => {}
        Case::Insensitive => compared.make_ascii_lowercase(),
    }
    Ok(compared)
}
