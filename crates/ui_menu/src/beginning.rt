//! A command that is asked for.
ghost use Rattle.std.specs.Prelude.{◌≡◌, ◌≢◌, IfOk, OnErr};
ghost use Rattle.ui_menu.specs.Beginnings.{IsBegun, begun_from};

use crate::act::Beginning;
use crate::asking::line_at;
use crate::command::answered;
use crate::prompts::Prompts;
use mc_text::{NoMemory, Path, Texts};
use percent_macros::{Context, Expanded, MacroError, expand};
use std::alloc::Global;

/// A command is asked for in the panel here: its macros are expanded, and where it has prompts the first
/// one is asked.
pub fn begin_command(alloc: Global, text: &str, context: &Context) -> Result<Beginning, NoMemory>
    ensures { IfOk result (λ begun. IsBegun context.now text.now begun) }
{
    match expand(alloc, text, context) {
        Ok(expanded) => begin_expanded(alloc, expanded, &context.here.folder),
        Err(error) => refused(error),
    }
}

/// A refusal, but for want of memory, which is an error.
fn refused(error: MacroError) -> Result<Beginning, NoMemory>
    ensures told { IfOk result (λ begun. (begun ≡ Beginning.Refused error) × (error ≢ MacroError.Memory)) }
    ensures memory { OnErr result (error ≡ MacroError.Memory) }
{
    match error {
        MacroError::Memory => Err(NoMemory),
        MacroError::UnknownMacro(at) => Ok(Beginning::Refused(MacroError::UnknownMacro(at))),
        MacroError::OpenBrace(at) => Ok(Beginning::Refused(MacroError::OpenBrace(at))),
    }
}

fn begin_expanded(alloc: Global, expanded: Expanded, folder: &Path) -> Result<Beginning, NoMemory>
    ensures { IfOk result (λ begun. begun ≡ begun_from expanded folder.now) }
{
    match line_at(alloc, &expanded, 0)? {
        Some(line) => {
            let folder = folder.copy(alloc)?;
            Ok(Beginning::Asks(Prompts::new(alloc, expanded, folder, line)))
        }
        None => {
            let answers = Texts::new(alloc);
            Ok(Beginning::Runs(answered(alloc, &expanded, &answers, folder)?))
        }
    }
}
