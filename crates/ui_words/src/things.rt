//! What boxes call the things that they ask of.
ghost use Rattle.std.specs.Prelude.{◌≡◌, ◌-◌, ◌++◌, codes, length, IfOk};
ghost use Rattle.std.specs.Fmt.{decimal};
ghost use Rattle.mc_text.specs.Drawn.{drawn_text};
ghost use Rattle.ui_words.specs.Things.{called as called_by, fitted_beside as name_fitted};
ghost use Rattle.ui_words.specs.Things.{first_name as name_of_first, name_of as name_of_path};
ghost use Rattle.ui_words.specs.Things.{others_words, things_line as line_of_things};

use mc_text::{NoMemory, Path, Text, columns_of, drawn, fit};
use std::alloc::Global;
use std::convert::AsStr;

/// One thing by its name, and several by their number.
pub(crate) fn called(alloc: Global, paths: &[Path]) -> Result<Text, NoMemory>
    ensures { IfOk result (λ text. text ≡ called_by paths.now) }
{
    match paths {
        [path] => Text::from_str(alloc, name_of(path)),
        paths => things_text(alloc, paths.len()),
    }
}

fn things_text(alloc: Global, count: usize) -> Result<Text, NoMemory>
    ensures { IfOk result (λ text. text ≡ decimal count ++ codes " things") }
{
    Ok(Text(format!(in alloc; "{count} things")?))
}

/// The name of the first of these things, and how many there are besides, in a line of so many columns.
pub(crate) fn things_line(alloc: Global, columns: usize, paths: &[Path]) -> Result<Text, NoMemory>
    ensures { IfOk result (λ line. line ≡ line_of_things columns paths.now) }
{
    let others = others_text(alloc, paths.len())?;
    let room = columns.saturating_sub(others.as_str().len());
    let Text(mut line) = fitted_beside(alloc, room, first_name(paths))?;
    line.push_str(others.as_str())?;
    Ok(Text(line))
}

/// How many there are besides the first of so many things.
fn others_text(alloc: Global, count: usize) -> Result<Text, NoMemory>
    ensures { IfOk result (λ text. text ≡ others_words count) }
{
    if count == 1 {
        return Text::from_str(alloc, "");
    }
    more_text(alloc, count.saturating_sub(1))
}

fn more_text(alloc: Global, count: usize) -> Result<Text, NoMemory>
    ensures { IfOk result (λ text. text ≡ codes " and " ++ (decimal count ++ codes " more")) }
{
    Ok(Text(format!(in alloc; " and {count} more")?))
}

/// A name that has room in so many columns, or as much of it as has.
#[tactic(auto, unfolding(crate::specs::Things::fitted_beside))]
fn fitted_beside(alloc: Global, room: usize, name: &str) -> Result<Text, NoMemory>
    ensures { IfOk result (λ text. text ≡ name_fitted room name.now) }
{
    let shown = drawn(alloc, name)?;
    if columns_of(shown.as_str()) <= room {
        return Text::from_str(alloc, name);
    }
    fit(alloc, shown.as_str(), room)
}

fn first_name(paths: &[Path]) -> &str
    ensures { result.now ≡ name_of_first paths.now }
{
    match paths {
        [] => "",
        [path, ..] => name_of(path),
    }
}

fn name_of(path: &Path) -> &str
    ensures { result.now ≡ name_of_path path.now }
{
    match path.last() {
        None => "",
        Some(name) => name,
    }
}
