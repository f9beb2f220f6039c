//! Requests, and what is planned of them.
ghost use Rattle.std.specs.Prelude.{IfSome};
ghost use Rattle.op_plan.specs.Soundness.{HasMode};

use crate::fields::{paths_of, repeated};
use crate::telling::{tell_job, tell_refusal};
use mc_text::{Bytes, Path, Text};
use op_plan::{Request, make_plan};
use rows_page::{Page, number, two_fields};
use std::alloc::Global;
use tree_trait::Tree;

/// What is planned of the request of a row.
pub fn tell_planned<T: Tree>(page: &mut Page, tree: &mut T, row: &str) {
    let (kind, fields) = two_fields(row, '|');
    match request_of(page.alloc(), kind, fields) {
        Some(request) => tell_plan_of(page, tree, request),
        None => page.fail(),
    }
}

fn tell_plan_of<T: Tree>(page: &mut Page, tree: &mut T, request: Request)
    requires { HasMode request }
{
    match make_plan(page.alloc(), tree, request) {
        Ok(job) => tell_job(page, &job),
        Err(error) => tell_refusal(page, &error),
    }
}

fn request_of(alloc: Global, kind: &str, fields: &str) -> Option<Request>
    ensures { IfSome result HasMode }
{
    match kind {
        "copy" => copy_of(alloc, fields),
        "move" => move_of(alloc, fields),
        "delete" => deletion_of(alloc, fields),
        "folder" => folder_of(alloc, fields),
        "mode" => mode_of(alloc, fields),
        "link" => link_of(alloc, fields),
        "long link" => long_link_of(alloc, fields),
        "nul link" => nul_link_of(alloc, fields),
        "save" => save_of(alloc, fields),
        _ => None,
    }
}

/// The folder in which a text was typed, the mask, the sources, the text.
fn copy_of(alloc: Global, fields: &str) -> Option<Request>
    ensures { IfSome result HasMode }
{
    let (from, fields) = two_fields(fields, '|');
    let (mask, fields) = two_fields(fields, '|');
    let (sources, to) = two_fields(fields, '|');
    let from = Path::parse(alloc, from).ok()?;
    let mask = Text::from_str(alloc, mask).ok()?;
    let to = Text::from_str(alloc, to).ok()?;
    let sources = paths_of(alloc, sources)?;
    Some(Request::Copy {
        sources,
        mask,
        from,
        to,
    })
}

/// The same fields.
fn move_of(alloc: Global, fields: &str) -> Option<Request>
    ensures { IfSome result HasMode }
{
    match copy_of(alloc, fields)? {
        Request::Copy {
            sources,
            mask,
            from,
            to,
        } => Some(Request::Move {
            sources,
            mask,
            from,
            to,
        }),
        _ => None,
    }
}

fn deletion_of(alloc: Global, sources: &str) -> Option<Request>
    ensures { IfSome result HasMode }
{
    let sources = paths_of(alloc, sources)?;
    Some(Request::Delete { sources })
}

/// The folder in which a text was typed, and the text.
fn folder_of(alloc: Global, fields: &str) -> Option<Request>
    ensures { IfSome result HasMode }
{
    let (from, to) = two_fields(fields, '|');
    let from = Path::parse(alloc, from).ok()?;
    let to = Text::from_str(alloc, to).ok()?;
    Some(Request::MakeFolder { from, to })
}

/// The mode in octal digits, and the sources.
fn mode_of(alloc: Global, fields: &str) -> Option<Request>
    ensures { IfSome result HasMode }
{
    let (digits, sources) = two_fields(fields, '|');
    let mode = u16::from_str_radix(digits, 8).unwrap_or(0);
    if mode > 0o7777 {
        return None;
    }
    let sources = paths_of(alloc, sources)?;
    Some(Request::SetMode { sources, mode })
}

/// The folder in which the link's place was typed, the place, the link's text.
fn link_of(alloc: Global, fields: &str) -> Option<Request>
    ensures { IfSome result HasMode }
{
    let (from, fields) = two_fields(fields, '|');
    let (to, text) = two_fields(fields, '|');
    link_that_says(alloc, from, to, text)
}

/// The same, with the number of letters of the link's text.
fn long_link_of(alloc: Global, fields: &str) -> Option<Request>
    ensures { IfSome result HasMode }
{
    let (from, fields) = two_fields(fields, '|');
    let (to, count) = two_fields(fields, '|');
    let text = repeated(alloc, "a", number(count));
    link_that_says(alloc, from, to, text.text())
}

/// A link whose text has a NUL between two letters.
fn nul_link_of(alloc: Global, fields: &str) -> Option<Request>
    ensures { IfSome result HasMode }
{
    let (from, to) = two_fields(fields, '|');
    link_that_says(alloc, from, to, "a\0b")
}

fn link_that_says(alloc: Global, from: &str, to: &str, text: &str) -> Option<Request>
    ensures { IfSome result HasMode }
{
    let from = Path::parse(alloc, from).ok()?;
    let to = Text::from_str(alloc, to).ok()?;
    let text = Text::from_str(alloc, text).ok()?;
    Some(Request::MakeLink { from, to, text })
}

/// The file's path, and its bytes.
fn save_of(alloc: Global, fields: &str) -> Option<Request>
    ensures { IfSome result HasMode }
{
    let (path, text) = two_fields(fields, '|');
    let path = Path::parse(alloc, path).ok()?;
    let bytes = Bytes::from_slice(alloc, text.as_bytes()).ok()?;
    Some(Request::Save { path, bytes })
}
