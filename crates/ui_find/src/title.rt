//! The title of the list.
ghost use Rattle.std.specs.Prelude.{◌≡◌, ◌++◌, string_bytes, IfOk, OnOk};
ghost use Rattle.std.specs.Fmt.{decimal};
ghost use Rattle.ui_find.specs.FindFrames.{found_title as title_of, list_title as title_of_list};
ghost use Rattle.ui_find.specs.FindFrames.{course_words, more_mark, skipped_words};

use crate::findings::Findings;
use crate::listing::Listing;
use mc_text::{NoMemory, Text};
use std::alloc::{AllocError, Global};

/// What was found so far, and which key stops the search while it goes on, or that it was stopped.
pub fn list_title(alloc: Global, listing: &Listing) -> Result<Text, NoMemory>
    ensures { IfOk result (λ title. title ≡ title_of_list listing.now) }
{
    let Text(mut title) = found_title(alloc, listing.findings())?;
    push_course(&mut title, listing.is_searching(), listing.is_stopped())?;
    Ok(Text(title))
}

/// How many paths were found, with a `+` where there are more than are listed, and how many were
/// skipped, where any were.
fn found_title(alloc: Global, findings: &Findings) -> Result<Text, NoMemory>
    ensures { IfOk result (λ title. title ≡ title_of findings.now) }
{
    let mut title = String::from_str(alloc, "Found ")?;
    push_number(&mut title, findings.found().len())?;
    push_mark(&mut title, findings.has_more())?;
    push_skipped(&mut title, findings.skipped())?;
    Ok(Text(title))
}

fn push_number(title: &mut String, number: usize) -> Result<(), AllocError>
    ensures { OnOk result (string_bytes title.new ≡ string_bytes title.old ++ decimal number) }
{
    write!(title, "{number}")?;
    Ok(())
}

fn push_mark(title: &mut String, has_more: bool) -> Result<(), AllocError>
    ensures { OnOk result (string_bytes title.new ≡ string_bytes title.old ++ more_mark has_more) }
{
    if has_more {
        return title.push_str("+");
    }
    Ok(())
}

fn push_course(title: &mut String, searching: bool, stopped: bool) -> Result<(), AllocError>
    ensures { OnOk result
        (string_bytes title.new ≡ string_bytes title.old ++ course_words searching stopped) }
{
    if searching {
        return title.push_str(", C-c stops");
    }
    if stopped {
        return title.push_str(", stopped");
    }
    Ok(())
}

fn push_skipped(title: &mut String, skipped: u64) -> Result<(), AllocError>
    ensures { OnOk result (string_bytes title.new ≡ string_bytes title.old ++ skipped_words skipped) }
{
    if skipped == 0 {
        return Ok(());
    }
    write!(title, ", skipped {skipped}")?;
    Ok(())
}
