//! A command whose macros are expanded, with the prompts that are still to be answered.
ghost use Rattle.std.specs.Prelude.{◌≡◌, IfOk, length};
ghost use Rattle.std.specs.List.{flat_map};
ghost use Rattle.percent_macros.specs.Commands.{prompts_in, filled_command, parts_of_piece};

use mc_text::{NoMemory, Text, Texts};
use std::alloc::Global;
use std::convert::AsStr;
use std::marker::Model;

/// A piece of a command: text, or the question of a prompt, in whose place the answer goes.
#[derive(Debug, Drop)]
pub enum Piece {
    Plain(Text),
    Prompt(Text),
}

/// The pieces of a command, in order. Contracts see each byte of plain text, and each prompt.
#[derive(Debug, Drop)]
pub struct Pieces(pub Vec<Piece>);

impl Model for Pieces {
    ghost use Rattle.std.specs.Prelude.{List};
    ghost use Rattle.std.specs.List.{flat_map};
    ghost use Rattle.percent_macros.specs.Commands.{CommandPart, parts_of_piece};

    ghost Value = { List CommandPart };

    ghost view = { λ p. flat_map parts_of_piece p.0.items };
}

/// A command whose macros are expanded, and whether the tagged names of each panel are
/// untagged when it is run.
#[derive(Debug, Drop)]
pub struct Expanded {
    pub pieces: Pieces,
    pub untag_here: bool,
    pub untag_other: bool,
}

impl Expanded {
    /// The command, with each answer in its prompt's place as it was typed.
    pub fn command(&self, alloc: Global, answers: &Texts) -> Result<Text, NoMemory>
        requires { length answers.now ≡ prompts_in self.now.pieces }
        ensures { IfOk result (λ command. command ≡ filled_command self.now.pieces answers.now) }
    {
        let pieces = &self.pieces;
        fill(alloc, pieces.0.as_slice(), answers.as_slice())
    }
}

/// The text of pieces, with an answer in each prompt's place.
fn fill(alloc: Global, pieces: &[Piece], answers: &[Text]) -> Result<Text, NoMemory>
    requires { length answers.now ≡ prompts_in (flat_map parts_of_piece pieces.now) }
    ensures { IfOk result
        (λ command. command ≡ filled_command (flat_map parts_of_piece pieces.now) answers.now) }
{
    let mut command = String::new(alloc);
    let mut unused = answers;
    for piece in pieces {
        match piece {
            Piece::Plain(text) => command.push_str(text.as_str())?,
            Piece::Prompt(_) => match unused.split_first() {
                Some((answer, others)) => {
                    command.push_str(answer.as_str())?;
                    unused = others;
                }
                None => unreachable!(),
            },
        }
    }
    Ok(Text(command))
}
