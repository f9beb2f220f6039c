//! Rows of macros and of quoted names.
ghost use Rattle.std.specs.Prelude.{◌≡◌, length, IfOk};
ghost use Rattle.percent_macros.specs.Commands.{prompts_in};

use crate::files::put_in_one_line;
use mc_text::{Name, NameError, Names, NoMemory, Path, Text, Texts};
use percent_macros::{Context, Expanded, Piece, Pieces, Side, expand, quote};
use rows_page::{Page, two_fields};
use std::alloc::Global;
use std::convert::AsStr;

pub fn answer(page: &mut Page, row: &str) {
    let (call, field) = two_fields(row, '|');
    match call {
        "expand" => tell_expanded(page, field),
        "fill" => tell_filled(page, field),
        "quote" => tell_quoted(page, field),
        "quote lines" => tell_quoted(page, "a\nb"),
        _ => page.fail(),
    }
}

/// A command, expanded between two panels. Each prompt is told by `?` and its question.
fn tell_expanded(page: &mut Page, command: &str) {
    let (Some(here), Some(other)) = (here(page.alloc()), other(page.alloc())) else {
        return page.fail();
    };
    match expand(page.alloc(), command, &Context { here, other }) {
        Ok(expanded) => tell(page, &expanded),
        Err(error) => page.tell(format_args!("{error:?}")),
    }
}

/// The panel here has a current file and two tagged ones.
fn here(alloc: Global) -> Option<Side> {
    side(alloc, "/p/q r", "x.tar.gz", tagged(alloc).ok()?)
}

/// The other one shows the root with none tagged.
fn other(alloc: Global) -> Option<Side> {
    side(alloc, "/", "$y", Names::new(alloc))
}

fn side(alloc: Global, folder: &str, current: &str, tagged: Names) -> Option<Side> {
    Some(Side {
        folder: Path::parse(alloc, folder).ok()?,
        current: Text::from_str(alloc, current).ok()?,
        tagged,
    })
}

fn tagged(alloc: Global) -> Result<Names, NameError> {
    let mut names = Names::new(alloc);
    add_name(alloc, &mut names, "-a")?;
    add_name(alloc, &mut names, "b c")?;
    Ok(names)
}

fn add_name(alloc: Global, names: &mut Names, text: &str) -> Result<(), NameError> {
    let name = Name::new(alloc, text)?;
    match names.push(name) {
        Ok(()) => Ok(()),
        Err(NoMemory) => Err(NameError::Memory),
    }
}

fn tell(page: &mut Page, expanded: &Expanded) {
    for piece in &expanded.pieces.0 {
        tell_piece(page, piece);
    }
    if expanded.untag_here {
        page.put(", untags here");
    }
    if expanded.untag_other {
        page.put(", untags there");
    }
}

fn tell_piece(page: &mut Page, piece: &Piece) {
    match piece {
        Piece::Plain(plain) => page.put(plain.as_str()),
        Piece::Prompt(question) => {
            page.put("?");
            page.put(question.as_str());
        }
    }
}

/// The command `echo `, then a prompt, with this answer.
fn tell_filled(page: &mut Page, answer: &str) {
    match echo_of_prompt(page.alloc()) {
        Ok(echo) => tell_command(page, &echo, answer),
        Err(_error) => page.fail(),
    }
}

fn tell_command(page: &mut Page, echo: &Expanded, answer: &str)
    requires { prompts_in echo.now.pieces ≡ 1 }
{
    match one_text(page.alloc(), answer) {
        Ok(answers) => tell_text(page, echo.command(page.alloc(), &answers)),
        Err(_error) => page.fail(),
    }
}

fn tell_text(page: &mut Page, text: Result<Text, NoMemory>) {
    match text {
        Ok(text) => put_in_one_line(page, text.as_str()),
        Err(_error) => page.fail(),
    }
}

fn echo_of_prompt(alloc: Global) -> Result<Expanded, NoMemory>
    ensures { IfOk result (λ expanded. prompts_in expanded.pieces ≡ 1) }
{
    let plain = Piece::Plain(Text::from_str(alloc, "echo ")?);
    let prompt = Piece::Prompt(Text::from_str(alloc, "Name")?);
    Ok(Expanded {
        pieces: Pieces(vec![in alloc; plain, prompt]?),
        untag_here: false,
        untag_other: false,
    })
}

fn one_text(alloc: Global, text: &str) -> Result<Texts, NoMemory>
    ensures { IfOk result (λ texts. length texts ≡ 1) }
{
    let mut texts = Texts::new(alloc);
    texts.push(Text::from_str(alloc, text)?)?;
    Ok(texts)
}

/// A name as a word of a command, with a bar for each newline.
fn tell_quoted(page: &mut Page, name: &str) {
    tell_text(page, quote(page.alloc(), name));
}
