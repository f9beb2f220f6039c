//! Numbers of decimal digits alone: no sign, no blank.
ghost use Rattle.std.specs.Prelude.{◌≡◌};
ghost use Rattle.std.specs.Str.{all_ascii_digits};
ghost use Rattle.main_words.specs.Numbers.{are_digits, number_of as number_spelled};

/// The number that 1 to `most` digits spell, where 32 bits hold it.
pub fn number_of(text: &str, most: usize) -> Option<u32>
    ensures { result ≡ number_spelled most text.now }
{
    if !has_digits(text, most) {
        return None;
    }
    text.parse::<u32>().ok()
}

/// Whether a text is 1 to `most` digits.
fn has_digits(text: &str, most: usize) -> bool
    ensures { result ≡ are_digits most text.now }
{
    is_all_digits(text) && !text.is_empty() && text.len() <= most
}

/// Whether there are only digits in a text.
fn is_all_digits(text: &str) -> bool
    ensures { result ≡ all_ascii_digits text.now }
{
    for byte in text.as_bytes() {
        if !byte.is_ascii_digit() {
            return false;
        }
    }
    true
}
