//! Typed paths that begin at HOME.

ghost use Rattle.std.specs.Prelude.{◌≡◌, ◌++◌, IfOk};
ghost use Rattle.mc_text.specs.Routes.{path_text};
ghost use Rattle.resolving.specs.Homes.{goes_below, in_place, with_home};

use mc_text::{NoMemory, Path, Text};
use std::alloc::Global;
use text_scan::behind_word;

/// A typed path, with the text of HOME in place of a tilde that is all of it, or all before its first
/// slash. Where HOME is missing it stays as it was typed.
pub fn with_home(alloc: Global, home: &Option<Path>, typed: &str) -> Result<Text, NoMemory>
    ensures { IfOk result (λ text. text ≡ with_home home.now typed.now) }
{
    match home {
        None => Text::from_str(alloc, typed),
        Some(home) => in_place(alloc, home, typed),
    }
}

/// The same where HOME is known.
fn in_place(alloc: Global, home: &Path, typed: &str) -> Result<Text, NoMemory>
    ensures { IfOk result (λ text. text ≡ in_place home.now typed.now) }
{
    match behind_word(typed, "~") {
        None => Text::from_str(alloc, typed),
        Some(rest) => {
            if goes_below(rest) {
                below(alloc, home, rest)
            } else {
                Text::from_str(alloc, typed)
            }
        }
    }
}

/// The text of a path, and another text behind it.
fn below(alloc: Global, path: &Path, rest: &str) -> Result<Text, NoMemory>
    ensures { IfOk result (λ text. text ≡ path_text path.now ++ rest.now) }
{
    let Text(mut text) = path.text(alloc)?;
    text.push_str(rest)?;
    Ok(Text(text))
}

/// Whether a text behind a tilde is empty, or begins with a slash.
fn goes_below(rest: &str) -> bool
    ensures { result ≡ goes_below rest.now }
{
    rest.is_empty() || behind_word(rest, "/").is_some()
}
