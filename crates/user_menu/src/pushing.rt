//! Lists of what a tree has answered.
ghost use Rattle.std.specs.Prelude.{◌≡◌, [], ◌∷◌, ◌++◌, IfErr, OnOk};

use std::alloc::AllocError;
use tree_trait::TreeError;

/// Puts an answer behind others. Want of memory is the tree's error.
pub fn push<A: Drop>(answers: &mut Vec<A>, answer: A) -> Result<(), TreeError>
    ensures pushed { OnOk result (answers.new.items ≡ answers.old.items ++ answer ∷ []) }
    ensures refused { IfErr result (λ e. e ≡ TreeError.Memory) }
{
    answers.push(answer).map_err(AllocError::from)?;
    Ok(())
}
