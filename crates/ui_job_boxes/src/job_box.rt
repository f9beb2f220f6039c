//! A box of a job, and what a key comes to in it.
use job_reports::{Answer, Job, JobRows, Waits};
use mc_dialogs::{InputLine, ModeBox};
use mc_text::{Path, Text};
use session_entries::Refusal;
use ui_words::{Carry, Chosen};

/// Things of which those are to be copied or moved whose names match the mask.
#[derive(Debug, Drop)]
pub struct MaskedSource {
    pub carry: Carry,
    pub chosen: Chosen,
    pub mask: Text,
}

/// A box that asks of a job, or tells what it waits with.
#[derive(Debug, Drop)]
pub enum JobBox {
    /// Asks whether to delete these things.
    Delete(Chosen),
    /// Asks which of these things are copied or moved, by their names.
    SourceMask(Carry, Chosen, InputLine),
    /// Asks where these things are to be copied or moved to.
    CarryTo(MaskedSource, InputLine),
    /// Asks where a new folder is to be made, and under which name.
    MakeFolder(InputLine),
    /// Asks what a new link is to say.
    LinkText(InputLine),
    /// Asks where a new link that says this is to be made, and under which name.
    LinkName(Text, InputLine),
    /// Asks which mode these things are to have.
    Mode(Chosen, ModeBox),
    /// Tells what a job waits with, and takes an answer.
    Answer(Waits),
}

/// What a box goes by besides the tree: the live jobs, the folders of the current panel and of
/// the other one, and HOME.
#[derive(Drop)]
pub struct Surroundings<'a> {
    pub rows: &'a JobRows,
    pub current: &'a Path,
    pub other: &'a Path,
    pub home: &'a Option<Path>,
}

/// What a key comes to in such a box.
#[derive(Debug, Drop)]
pub enum JobReply {
    Stays,
    Shuts,
    /// Another box is to stand in its place.
    Opens(JobBox),
    /// This job is to be begun. The box stays until it is.
    Begins(Job),
    /// The job is to be answered so. The box stays until it is.
    Answers(Answer),
    /// That is refused. The box stays.
    Refuses(Refusal),
}
