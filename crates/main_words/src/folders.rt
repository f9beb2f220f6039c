//! The paths that words name, below the folder in which the program was started.
ghost use Rattle.std.specs.Prelude.{◌≡◌, ◌∷◌, true, false, Err, None, Some, IfOk, option_map};
ghost use Rattle.main_words.specs.Folders.{above as above_route, begins_in};
ghost use Rattle.main_words.specs.Folders.{folder_named as route_named, home_in, is_passed};
ghost use Rattle.main_words.specs.Folders.{is_refused_in, panel_folder as folder_of_panel};
ghost use Rattle.main_words.specs.Folders.{path_named, started_in, step_below};

use crate::words::WordsError;
use mc_text::{Name, NameError, NoMemory, Path, PathError, Text};
use std::alloc::Global;

/// What a session starts with: the folder of a panel, or a file that is viewed, as it
/// was typed, and its path.
#[derive(Debug, Drop)]
pub struct StartPath {
    pub typed: Text,
    pub path: Path,
}

/// The folder in which the program was started, by its text in the surroundings; the root where
/// that is no absolute path.
pub fn started_folder(alloc: Global, text: &str) -> Result<Path, NoMemory>
    ensures { IfOk result (λ folder. folder ≡ started_in text.now) }
{
    match Path::parse(alloc, text) {
        Ok(folder) => Ok(folder),
        Err(PathError::Memory) => Err(NoMemory),
        Err(_) => Ok(Path::root(alloc)),
    }
}

/// HOME, by its text in the surroundings; missing where that is no absolute path.
pub fn home_folder(alloc: Global, home: &Option<Text>) -> Result<Option<Path>, NoMemory>
    ensures { IfOk result (λ path. path ≡ home_in home.now) }
{
    match home {
        None => Ok(None),
        Some(text) => path_of(alloc, text.0.as_str()),
    }
}

/// The path of a text, if it is an absolute one.
fn path_of(alloc: Global, text: &str) -> Result<Option<Path>, NoMemory>
    ensures { IfOk result (λ path. path ≡ home_in (Some text.now)) }
{
    match Path::parse(alloc, text) {
        Ok(path) => Ok(Some(path)),
        Err(PathError::Memory) => Err(NoMemory),
        Err(_) => Ok(None),
    }
}

/// The folder of a panel: the one that its word names, or without a word `started`.
pub fn panel_folder(
    alloc: Global,
    started: &Path,
    word: Option<&str>,
) -> Result<StartPath, WordsError>
    ensures read { IfOk result (λ folder.
        folder_of_panel started.now (option_map (λ text. text.now) word.entry) ≡ Some folder) }
    ensures usage { result ≡ Err WordsError.Usage
        → folder_of_panel started.now (option_map (λ text. text.now) word.entry) ≡ None }
{
    match word {
        Some(word) => named_path(alloc, started, word),
        None => {
            let path = started.copy(alloc)?;
            let typed = started.text(alloc)?;
            Ok(StartPath { typed, path })
        }
    }
}

/// The path that a word names.
pub fn named_path(alloc: Global, started: &Path, word: &str) -> Result<StartPath, WordsError>
    ensures read { IfOk result (λ named. path_named started.now word.now ≡ Some named) }
    ensures usage { result ≡ Err WordsError.Usage → path_named started.now word.now ≡ None }
{
    let path = folder_named(alloc, started, word)?;
    let typed = Text::from_str(alloc, word)?;
    Ok(StartPath { typed, path })
}

/// Where a word leads: from the root where a slash stands first, and else from `started`. Dot and dot-dot
/// are read without a look at the tree. Each component copies the path so far.
fn folder_named(alloc: Global, started: &Path, word: &str) -> Result<Path, WordsError>
    ensures read { IfOk result (λ folder. route_named started.now word.now ≡ Some folder) }
    ensures usage { result ≡ Err WordsError.Usage → route_named started.now word.now ≡ None }
{
    let mut folder = begin(alloc, started, word)?;
    for component in word.split('/') {
        if !is_passed_over(component) {
            folder = step_to(alloc, &folder, component)?;
        }
    }
    Ok(folder)
}

/// Where a word begins.
fn begin(alloc: Global, started: &Path, word: &str) -> Result<Path, NoMemory>
    ensures { IfOk result (λ folder. folder ≡ begins_in started.now word.now) }
{
    if word.starts_with('/') {
        return Ok(Path::root(alloc));
    }
    started.copy(alloc)
}

/// Whether a component leads nowhere else.
fn is_passed_over(component: &str) -> bool
    ensures { result ≡ is_passed component.now }
{
    component.is_empty() || component == "."
}

/// Where a component leads from a folder.
fn step_to(alloc: Global, folder: &Path, component: &str) -> Result<Path, WordsError>
    ensures read { IfOk result (λ further. step_below folder.now component.now ≡ Some further) }
    ensures usage { result ≡ Err WordsError.Usage → step_below folder.now component.now ≡ None }
{
    if component == ".." {
        return Ok(above(alloc, folder)?);
    }
    entry(alloc, folder, component)
}

/// The folder above; the root is its own.
fn above(alloc: Global, folder: &Path) -> Result<Path, NoMemory>
    ensures { IfOk result (λ path. path ≡ above_route folder.now) }
{
    match folder.parent(alloc)? {
        Some(path) => Ok(path),
        None => Ok(Path::root(alloc)),
    }
}

/// The path of a folder's entry.
fn entry(alloc: Global, folder: &Path, component: &str) -> Result<Path, WordsError>
    ensures path { IfOk result (λ path. path ≡ component.now ∷ folder.now) }
    ensures sound { IfOk result (λ _. is_refused_in folder.now component.now ≡ false) }
    ensures usage { result ≡ Err WordsError.Usage → is_refused_in folder.now component.now ≡ true }
{
    let name = match Name::new(alloc, component) {
        Ok(name) => name,
        Err(NameError::Memory) => return Err(WordsError::Memory),
        Err(_) => return Err(WordsError::Usage),
    };
    match folder.join(alloc, &name) {
        Ok(path) => Ok(path),
        Err(PathError::Memory) => Err(WordsError::Memory),
        Err(_) => Err(WordsError::Usage),
    }
}
