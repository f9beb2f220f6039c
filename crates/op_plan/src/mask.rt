//! The mask of a destination: how a target's name is made of a source's.
ghost use Rattle.std.specs.Prelude.{◌≡◌, ◌≢◌, false, [], ◌∷◌, ◌++◌, IfOk, IfErr, OnOk, chars, Some, None};
ghost use Rattle.std.specs.String.{string_bytes};
ghost use Rattle.op_plan.specs.Answering.{is_fault, CarriesPlanCause};
ghost use Rattle.op_plan.specs.Masks.{pieces_of, quoted_piece, plain_piece, is_asking, asks, keeps_name};
ghost use Rattle.op_plan.specs.Filling.{taken_text, added_text, filled_with};

use crate::error::PlanError;
use mc_text::{NoMemory, Text};
use std::alloc::Global;
use std::convert::AsStr;
use std::marker::Model;

/// A piece of a destination's mask.
#[derive(Clone, Copy, Debug, Drop)]
pub enum MaskPiece {
    /// This character alone.
    Plain(char),
    /// `*`: what the next wildcard of the source's mask took.
    Star,
    /// `\0`: the whole name of the source.
    WholeName,
    /// `\1` to `\9`: what the wildcard at this place took, counted from 0.
    Capture(usize),
    /// A backslash that ends the mask, which makes it a bad one.
    OpenBackslash,
}

impl MaskPiece {
    /// Whether the piece asks for the source's name or a part of it.
    fn is_asking(self) -> bool
        ensures { result ≡ is_asking self }
    {
        match self {
            MaskPiece::Plain(_) | MaskPiece::OpenBackslash => false,
            MaskPiece::Star | MaskPiece::WholeName | MaskPiece::Capture(_) => true,
        }
    }
}

/// The mask of a destination. Contracts see its pieces.
#[derive(Debug, Drop)]
pub struct Mask {
    pieces: Vec<MaskPiece>,
}

impl Model for Mask {
    ghost use Rattle.std.specs.Prelude.{List};
    ghost use Rattle.op_plan.specs.declared.mask.MaskPiece.{MaskPiece};

    ghost Value = { List MaskPiece };

    ghost view = { λ m. m.pieces.items };
}

impl Mask {
    /// Reads a mask.
    pub fn parse(alloc: Global, text: &str) -> Result<Mask, NoMemory>
        ensures { IfOk result (λ mask. mask ≡ pieces_of (chars text.now)) }
    {
        let mut pieces = Vec::new(alloc);
        let mut quoted = false;
        for character in text.chars() {
            if quoted {
                pieces.push(quoted_piece(character))?;
                quoted = false;
            } else if character == '\\' {
                quoted = true;
            } else {
                pieces.push(plain_piece(character))?;
            }
        }
        if quoted {
            pieces.push(MaskPiece::OpenBackslash)?;
            return Ok(Mask { pieces });
        }
        Ok(Mask { pieces })
    }

    /// A star alone.
    pub fn star(alloc: Global) -> Result<Mask, NoMemory>
        ensures { IfOk result (λ mask. mask ≡ MaskPiece.Star ∷ []) }
    {
        let mut pieces = Vec::new(alloc);
        pieces.push(MaskPiece::Star)?;
        Ok(Mask { pieces })
    }

    /// Whether a piece asks for the source's name or a part of it.
    pub fn asks(&self) -> bool
        ensures { result ≡ asks self.now }
    {
        self.pieces.iter().any(|piece| piece.is_asking())
    }

    /// Whether the mask is a star alone, which leaves each name as it is.
    pub fn keeps_name(&self) -> bool
        ensures { result ≡ keeps_name self.now }
    {
        matches!(self.pieces.as_slice(), [MaskPiece::Star])
    }

    /// The text that the mask makes of a name and of what the wildcards of the source's mask took of it.
    /// `BadMask` where it asks for more than was taken, and where it ends in a backslash.
    pub fn fill(&self, alloc: Global, name: &str, captures: &[Text]) -> Result<Text, PlanError>
        ensures filled { IfOk result (λ text.
            filled_with name.now captures.now captures.now self.now ≡ Some text) }
        ensures bad { IfErr result (λ e. e ≢ PlanError.Memory
            → (e ≡ PlanError.BadMask) × (filled_with name.now captures.now captures.now self.now ≡ None)) }
        ensures no_fault { IfErr result (λ e. is_fault e ≡ false) }
        ensures carried { IfErr result CarriesPlanCause }
    {
        let mut text = String::new(alloc);
        let mut stars = captures;
        for piece in &self.pieces {
            stars = put_piece(&mut text, *piece, name, captures, stars)?;
        }
        Ok(Text(text))
    }
}

/// Puts what a piece stands for behind a text. Gives the captures that are left for later stars.
fn put_piece<'a>(
    text: &mut String,
    piece: MaskPiece,
    name: &str,
    captures: &[Text],
    stars: &'a [Text],
) -> Result<&'a [Text], PlanError>
    ensures put { IfOk result (λ left. taken_text name.now captures.now stars.now piece
        ≡ Some (added_text name.now captures.now stars.now piece, left.now)) }
    ensures text { OnOk result
        (string_bytes text.new ≡ string_bytes text.old ++ added_text name.now captures.now stars.now piece) }
    ensures bad { IfErr result (λ e. e ≢ PlanError.Memory
        → (e ≡ PlanError.BadMask) × (taken_text name.now captures.now stars.now piece ≡ None)) }
    ensures no_fault { IfErr result (λ e. is_fault e ≡ false) }
    ensures carried { IfErr result CarriesPlanCause }
{
    match piece {
        MaskPiece::Plain(character) => {
            text.push(character)?;
            Ok(stars)
        }
        MaskPiece::Star => {
            let Some((capture, left)) = stars.split_first() else {
                return Err(PlanError::BadMask);
            };
            text.push_str(capture.as_str())?;
            Ok(left)
        }
        MaskPiece::WholeName => {
            text.push_str(name)?;
            Ok(stars)
        }
        MaskPiece::Capture(place) => {
            let Some(capture) = captures.get(place) else {
                return Err(PlanError::BadMask);
            };
            text.push_str(capture.as_str())?;
            Ok(stars)
        }
        MaskPiece::OpenBackslash => Err(PlanError::BadMask),
    }
}

/// What a character is behind a backslash.
fn quoted_piece(character: char) -> MaskPiece
    ensures { result ≡ quoted_piece character }
{
    match character {
        '0' => MaskPiece::WholeName,
        '1'..='9' => MaskPiece::Capture(character as usize - '1' as usize),
        _ => MaskPiece::Plain(character),
    }
}

/// What a character is that no backslash quotes, and that is none.
fn plain_piece(character: char) -> MaskPiece
    ensures { result ≡ plain_piece character }
{
    match character {
        '*' => MaskPiece::Star,
        _ => MaskPiece::Plain(character),
    }
}
