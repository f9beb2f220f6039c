//! The words of a format.
ghost use Rattle.std.specs.Prelude.{◌≡◌, ◌+◌, ◌<◌, ◌≤◌, ◌^◌, [], length, MatchOption};
ghost use Rattle.panel_listing.specs.FormatTexts.{words_from, separates, joins};
ghost use Rattle.panel_listing.specs.Words.{word_size, IsNextWord};

/// A word, and where its first byte stands.
#[derive(Clone, Copy)]
pub struct Word<'a> {
    pub at: usize,
    pub text: &'a [u8],
}

/// The first word of a text whose first byte stands at this place, and what is behind it.
pub fn next_word<'a>(at: usize, text: &'a [u8]) -> Option<(Word<'a>, &'a [u8])>
    requires { at + length text.now < 2 ^ 64 }
    ensures { MatchOption result (words_from at text.now ≡ [])
        (λ (word, behind). IsNextWord at text.now word behind.now) }
{
    let mut from = at;
    let mut rest = text;
    while let Some((byte, behind)) = rest.split_first() {
        if !separates(*byte) {
            let (word, behind) = rest.split_at(word_size(rest));
            return Some((
                Word {
                    at: from,
                    text: word,
                },
                behind,
            ));
        }
        from += 1;
        rest = behind;
    }
    None
}

/// Whether a byte stands between words: a blank, a tab or a comma.
fn separates(byte: u8) -> bool
    ensures { result ≡ separates byte }
{
    byte == b' ' || byte == b'\t' || byte == b','
}

/// How many bytes the word at the front of a text has.
fn word_size(text: &[u8]) -> usize
    ensures size { result ≡ word_size text.now }
    ensures within { result ≤ length text.now }
{
    let mut size = 0;
    let mut rest = text;
    while let Some((byte, behind)) = rest.split_first() {
        size += 1;
        if !joins(*byte, behind) {
            return size;
        }
        rest = behind;
    }
    size
}

/// Whether a byte and the one behind it belong to one word.
fn joins(byte: u8, behind: &[u8]) -> bool
    ensures { result ≡ joins byte behind.now }
{
    match behind {
        [] => false,
        [next, ..] if byte == b'|' => *next == b':',
        [next, ..] => !separates(*next) && *next != b'|',
    }
}
