//! The macros by their letters (mc(1), "Macro Substitution").
ghost use Rattle.std.specs.Prelude.{◌≡◌};
ghost use Rattle.percent_macros.specs.MacroTable.{macro_named, untags_here, untags_other};

/// What a macro of one letter stands for. "Here" is the panel in which the command is given.
#[derive(Clone, Copy, Debug, PartialEq, Eq)]
pub enum Macro {
    Percent,
    CurrentHere,
    CurrentOther,
    Extension,
    Stem,
    FolderHere,
    FolderOther,
    TaggedHere,
    TaggedOther,
    UntaggedHere,
    UntaggedOther,
    SelectedHere,
    SelectedOther,
}

impl Macro {
    /// Whether the names of the panel here are untagged when the command is run.
    pub fn untags_here(self) -> bool
        ensures { result ≡ untags_here self }
    {
        match self {
            Macro::UntaggedHere => true,
            _ => false,
        }
    }

    /// The same of the other panel.
    pub fn untags_other(self) -> bool
        ensures { result ≡ untags_other self }
    {
        match self {
            Macro::UntaggedOther => true,
            _ => false,
        }
    }
}

/// The macro of a letter behind a percent.
pub fn macro_named(letter: char) -> Option<Macro>
    ensures { result ≡ macro_named letter }
{
    match letter {
        '%' => Some(Macro::Percent),
        'f' | 'p' => Some(Macro::CurrentHere),
        'F' => Some(Macro::CurrentOther),
        'x' => Some(Macro::Extension),
        'b' => Some(Macro::Stem),
        'd' => Some(Macro::FolderHere),
        'D' => Some(Macro::FolderOther),
        't' => Some(Macro::TaggedHere),
        'T' => Some(Macro::TaggedOther),
        'u' => Some(Macro::UntaggedHere),
        'U' => Some(Macro::UntaggedOther),
        's' => Some(Macro::SelectedHere),
        'S' => Some(Macro::SelectedOther),
        _ => None,
    }
}
