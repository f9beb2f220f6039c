//! The expansion of a command.
ghost use Rattle.std.specs.Prelude.{◌≡◌, ◌≢◌, ◌≤◌, ◌∷◌, ◌++◌, length, IfOk, IfErr, ℕ, List};
ghost use Rattle.percent_macros.specs.Expansion.{Expands, IsFirstFault, IsFaultAt};
ghost use Rattle.percent_macros.specs.MacroSteps.{ReadsMacro};

use crate::context::Context;
use crate::draft::Draft;
use crate::error::MacroError;
use crate::macros::macro_named;
use crate::pieces::Expanded;
use std::alloc::Global;
use text_scan::{first_char, split_at_mark};

/// Expands the macros of a command. `UnknownMacro` has the position of a percent behind which no macro
/// stands, `OpenBrace` that of a prompt that nothing closes; the first such percent decides.
pub fn expand(alloc: Global, text: &str, context: &Context) -> Result<Expanded, MacroError>
    ensures expanded { IfOk result (λ expanded. Expands context.now text.now expanded) }
    ensures refused { IfErr result (λ e. e ≢ MacroError.Memory → IsFirstFault text.now e) }
{
    let mut draft = Draft::new(alloc);
    let mut rest = text;
    while let Some((plain, behind)) = split_at_mark(rest, '%') {
        draft.write(plain)?;
        let at = text.len() - behind.len() - 1;
        rest = read_macro(alloc, context, at, behind, &mut draft)?;
    }
    draft.write(rest)?;
    let expanded = draft.finish()?;
    Ok(expanded)
}

/// Reads the macro or prompt behind a percent at `at`, and gives the text behind it.
fn read_macro<'a>(
    alloc: Global,
    context: &Context,
    at: usize,
    behind: &'a str,
    draft: &mut Draft,
) -> Result<&'a str, MacroError>
    ensures read { IfOk result (λ rest. ReadsMacro context.now behind.now rest.now draft.old draft.new) }
    ensures refused { IfErr result (λ e. e ≢ MacroError.Memory → IsFaultAt at behind.now e) }
    ensures shorter { IfOk result (λ rest. length rest.now ≤ length behind.now) }
{
    match first_char(behind) {
        Some(('{', prompt)) => {
            let Some((question, rest)) = split_at_mark(prompt, '}') else {
                return Err(MacroError::OpenBrace(at));
            };
            draft.ask(alloc, question)?;
            Ok(rest)
        }
        Some((letter, rest)) => {
            let Some(meant) = macro_named(letter) else {
                return Err(MacroError::UnknownMacro(at));
            };
            draft.insert(alloc, context, meant)?;
            Ok(rest)
        }
        None => Err(MacroError::UnknownMacro(at)),
    }
}
