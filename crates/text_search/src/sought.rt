//! What a search comes to.

/// What a search of a file comes to: the place where what is sought begins; or a line that is
/// too long to be searched, with the place where it begins; or that the text which is to be a
/// regular expression is none.
#[derive(Clone, Copy, Debug, Drop, PartialEq, Eq)]
pub enum Sought {
    At(u64),
    Nowhere,
    TooLong(u64),
    NoPattern,
}

/// What a search of a part of a file comes to: the place in it where what is sought begins, or how many of
/// its bytes are lines in which it isn't found, or that its first line is too long.
#[derive(Clone, Copy, Debug, Drop, PartialEq, Eq)]
pub enum Part {
    Found(usize),
    Passed(usize),
    TooLong,
}
