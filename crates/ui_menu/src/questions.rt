//! The questions of a command's prompts.
ghost use Rattle.std.specs.Prelude.{◌≡◌, slice_get};
ghost use Rattle.std.specs.List.{flat_map};
ghost use Rattle.std.specs.Option.{option_map};
ghost use Rattle.percent_macros.specs.Commands.{parts_of_piece};
ghost use Rattle.ui_menu.specs.Questions.{questions_in};

use mc_text::Text;
use percent_macros::Piece;

/// The question at a position, counted from 0, of a command in these pieces.
pub fn question_at(pieces: &[Piece], position: usize) -> Option<&Text>
    ensures { option_map (λ question. question.now) result
        ≡ slice_get (questions_in (flat_map parts_of_piece pieces.now)) position }
{
    let mut left = position;
    let mut rest = pieces;
    while let Some((piece, more)) = rest.split_first() {
        match piece {
            Piece::Plain(_) => {}
            Piece::Prompt(question) => {
                if left == 0 {
                    return Some(question);
                }
                left -= 1;
            }
        }
        rest = more;
    }
    None
}
