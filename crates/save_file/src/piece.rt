//! Which piece of work comes next.
ghost use Rattle.std.specs.Prelude.{◌≡◌};
ghost use Rattle.save_file.specs.Saving.{piece_at};

use copy_file::Stage;

/// What is to be done next.
#[derive(Clone, Copy, Debug, Drop, PartialEq, Eq)]
pub(crate) enum Piece {
    /// The part is to be made.
    Make,
    /// So many bytes are written, and the next ones are to be.
    Write(u64),
    /// What comes next is the same for any part: it is placed or removed, and its folder is synced.
    Settle,
}

pub(crate) fn next_piece(stage: &Stage) -> Piece
    ensures { result ≡ piece_at stage.now }
{
    match stage {
        Stage::Begin => Piece::Make,
        Stage::Fill { facts, done, .. } => {
            if *done < facts.size {
                Piece::Write(*done)
            } else {
                Piece::Settle
            }
        }
        Stage::Clean { .. } => Piece::Settle,
        Stage::Left { .. } => Piece::Settle,
        Stage::Decided => Piece::Settle,
    }
}
