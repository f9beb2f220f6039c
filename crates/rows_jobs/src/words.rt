//! The words of rows.
use job_answers::Then;
use job_reports::{Answer, AnswerError, Cause};
use mc_text::Kind;
use tree_trait::TreeError;

/// The word of fields at this place, with a blank between two.
pub fn word_at(fields: &str, place: usize) -> &str {
    fields.split(' ').nth(place).unwrap_or("")
}

pub fn number_at(fields: &str, place: usize) -> u64 {
    word_at(fields, place).parse().unwrap_or(0)
}

pub fn second_at(fields: &str, place: usize) -> i64 {
    word_at(fields, place).parse().unwrap_or(0)
}

pub fn kind_of(word: &str) -> Option<Kind> {
    match word {
        "file" => Some(Kind::File),
        "folder" => Some(Kind::Folder),
        "link" => Some(Kind::Link),
        "special" => Some(Kind::Other),
        _ => None,
    }
}

pub fn cause_of(words: &str) -> Cause {
    match words {
        "missing" => Cause::Tree(TreeError::Missing),
        "denied" => Cause::Tree(TreeError::Denied),
        "no space" => Cause::Tree(TreeError::NoSpace),
        "fault" => Cause::Tree(TreeError::Fault),
        "file in the way" => Cause::TargetKind(Kind::File),
        "folder in the way" => Cause::TargetKind(Kind::Folder),
        "special source" => Cause::SpecialSource,
        "too deep" => Cause::TooDeep,
        "part taken" => Cause::PartTaken,
        "too long" => Cause::TooLong,
        "one unnamed" => Cause::Unnamed(1),
        "two unnamed" => Cause::Unnamed(2),
        "changed at 1" => Cause::Changed { said: 2, got: 1 },
        "changed at 3" => Cause::Changed { said: 4, got: 3 },
        _ => Cause::Memory,
    }
}

pub fn answer_of(word: &str) -> Option<Answer> {
    match word {
        "yes" => Some(Answer::Yes),
        "no" => Some(Answer::No),
        "all" => Some(Answer::All),
        "update" => Some(Answer::Update),
        "nothing" => Some(Answer::Nothing),
        "sizes" => Some(Answer::SizeDiffers),
        "retry" => Some(Answer::Retry),
        "skip" => Some(Answer::Skip),
        "skip_all" => Some(Answer::SkipAll),
        "abort" => Some(Answer::Abort),
        _ => None,
    }
}

pub fn then_word(then: Then) -> &'static str {
    match then {
        Then::Decides => "decides",
        Then::Retries => "retries",
        Then::Skips => "skips",
        Then::Ends => "ends",
    }
}

pub fn error_word(error: AnswerError) -> &'static str {
    match error {
        AnswerError::NotAsked => "not asked",
        AnswerError::WrongAnswer => "wrong answer",
    }
}
