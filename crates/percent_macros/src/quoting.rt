//! Names as they stand in a command.
ghost use Rattle.std.specs.Prelude.{◌≡◌, ◌++◌, ◌∷◌, [], Some, encode_utf8, OnOk, IfOk};
ghost use Rattle.std.specs.String.{string_bytes};
ghost use Rattle.percent_macros.specs.Quoting.{name_in_quotes, quoted_bytes, as_operand};
ghost use Rattle.percent_macros.specs.ShellWords.{shell_word};

use mc_text::{NoMemory, Text};
use std::alloc::Global;
use text_scan::first_char;

/// The name as one word of a command, with `./` before one that begins with `-`. The shell reads
/// the word back as the name.
pub fn quote(alloc: Global, name: &str) -> Result<Text, NoMemory>
    ensures quoted { IfOk result (λ word. word ≡ name_in_quotes name.now) }
    ensures read_back { IfOk result (λ word. shell_word word ≡ Some (as_operand name.now)) }
{
    let word = quoted_name(alloc, name)?;
    Ok(word)
}

/// The name quoted.
fn quoted_name(alloc: Global, name: &str) -> Result<Text, NoMemory>
    ensures { IfOk result (λ word. word ≡ name_in_quotes name.now) }
{
    let mut word = String::new(alloc);
    if name.starts_with('-') {
        word.push_str("./")?;
    }
    push_quoted(&mut word, name)?;
    Ok(Text(word))
}

/// Puts the text at the end, quoted.
fn push_quoted(word: &mut String, text: &str) -> Result<(), NoMemory>
    ensures { OnOk result (string_bytes word.new ≡ string_bytes word.old ++ quoted_bytes text.now) }
{
    let mut rest = text;
    while let Some((character, behind)) = first_char(rest) {
        push_character(word, character)?;
        rest = behind;
    }
    Ok(())
}

/// Puts a character at the end, quoted where it isn't plain.
fn push_character(word: &mut String, character: char) -> Result<(), NoMemory>
    ensures { OnOk result
        (string_bytes word.new ≡ string_bytes word.old ++ quoted_bytes (encode_utf8 character)) }
{
    match character {
        '\n' => word.push_str("'\n'")?,
        'a'..='z' | 'A'..='Z' | '0'..='9' | '_' | '.' | '/' | '-' | '+' | ',' => word.push(
            character,
        )?,
        '\0'..='\x7f' => {
            word.push('\\')?;
            word.push(character)?;
        }
        _ => word.push(character)?,
    }
    Ok(())
}
