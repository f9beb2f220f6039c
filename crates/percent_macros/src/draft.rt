//! The expansion of a command, as far as it is read.
ghost use Rattle.std.specs.Prelude.{◌≡◌, [], ◌++◌, map, OnOk, IfOk, ◌||◌, string_bytes};
ghost use Rattle.std.specs.List.{flat_map};
ghost use Rattle.percent_macros.specs.Commands.{parts_of_piece, Typed};
ghost use Rattle.percent_macros.specs.Expansion.{typed_expansion, prompt_expansion};
ghost use Rattle.percent_macros.specs.Expansion.{meaning, joined_expansions};

use crate::context::Context;
use crate::inserted::inserted;
use crate::macros::Macro;
use crate::pieces::{Expanded, Piece, Pieces};
use mc_text::{NoMemory, Text};
use std::alloc::Global;
use std::convert::AsStr;
use std::mem;

/// The expansion so far: whole pieces, and the text behind the last prompt.
#[derive(Drop)]
pub struct Draft {
    pub pieces: Vec<Piece>,
    pub text: String,
    pub untag_here: bool,
    pub untag_other: bool,
}

impl Draft {
    ghost use Rattle.percent_macros.specs.Drafts.{draft_of};

    /// Nothing yet.
    pub fn new(alloc: Global) -> Draft
        ensures { draft_of result ≡ typed_expansion [] }
    {
        Draft {
            pieces: Vec::new(alloc),
            text: String::new(alloc),
            untag_here: false,
            untag_other: false,
        }
    }

    /// Puts text at the end.
    pub fn write(&mut self, text: &str) -> Result<(), NoMemory>
        ensures { OnOk result
            (draft_of self.new ≡ joined_expansions (draft_of self.old) (typed_expansion text.now)) }
    {
        self.text.push_str(text)?;
        Ok(())
    }

    /// Puts the text of a macro at the end.
    pub fn insert(&mut self, alloc: Global, context: &Context, meant: Macro) -> Result<(), NoMemory>
        ensures { OnOk result
            (draft_of self.new ≡ joined_expansions (draft_of self.old) (meaning context.now meant)) }
    {
        let text = inserted(alloc, context, meant)?;
        self.text.push_str(text.as_str())?;
        self.untag_here = either(self.untag_here, meant.untags_here());
        self.untag_other = either(self.untag_other, meant.untags_other());
        Ok(())
    }

    /// Puts a prompt at the end.
    pub fn ask(&mut self, alloc: Global, question: &str) -> Result<(), NoMemory>
        ensures { OnOk result
            (draft_of self.new ≡ joined_expansions (draft_of self.old) (prompt_expansion question.now)) }
    {
        let text = mem::replace(&mut self.text, String::new(alloc));
        push_text(&mut self.pieces, text)?;
        self.pieces
            .push(Piece::Prompt(Text::from_str(alloc, question)?))?;
        Ok(())
    }

    /// The expansion.
    pub fn finish(self) -> Result<Expanded, NoMemory>
        ensures { IfOk result (λ expanded. expanded ≡ draft_of self) }
    {
        let mut pieces = self.pieces;
        push_text(&mut pieces, self.text)?;
        Ok(Expanded {
            pieces: Pieces(pieces),
            untag_here: self.untag_here,
            untag_other: self.untag_other,
        })
    }
}

/// Puts a piece of text at the end, unless the text is empty.
fn push_text(pieces: &mut Vec<Piece>, text: String) -> Result<(), NoMemory>
    ensures { OnOk result (flat_map parts_of_piece pieces.new.items
        ≡ flat_map parts_of_piece pieces.old.items ++ map Typed (string_bytes text)) }
{
    if !text.is_empty() {
        pieces.push(Piece::Plain(Text(text)))?;
    }
    Ok(())
}

/// Whether one of two facts holds.
fn either(one: bool, other: bool) -> bool
    ensures { result ≡ (one || other) }
{
    one || other
}
