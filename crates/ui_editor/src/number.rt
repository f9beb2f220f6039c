//! Numbers of decimal digits alone: no sign, no blank.
ghost use Rattle.std.specs.Prelude.{◌≡◌};
ghost use Rattle.std.specs.Str.{all_ascii_digits};
ghost use Rattle.ui_viewer.specs.Numbers.{are_digits, number_in};

/// The number that digits spell, where these are all that there is, and 64 bits hold it.
pub fn number_in(text: &str) -> Option<u64>
    ensures { result ≡ number_in text.now }
{
    if !are_digits(text) {
        return None;
    }
    text.parse::<u64>().ok()
}

/// Whether a text is one digit or more.
fn are_digits(text: &str) -> bool
    ensures { result ≡ are_digits text.now }
{
    is_all_digits(text) && !text.is_empty()
}

/// Whether there are only digits in a text.
fn is_all_digits(text: &str) -> bool
    ensures { result ≡ all_ascii_digits text.now }
{
    for byte in text.as_bytes() {
        if !byte.is_ascii_digit() {
            return false;
        }
    }
    true
}
