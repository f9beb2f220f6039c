//! How a run begins, by its words.
ghost use Rattle.std.specs.Prelude.{◌≡◌, ◌<◌, Some, IfOk};
ghost use Rattle.mc_main.specs.Beginnings.{IsBeginning, asked_in, start_with, status_with};
ghost use Rattle.mc_main.specs.Beginnings.{surroundings_in, text_of, word_for as word_of};

use crate::run::Env;
use main_words::{Size, Words, WordsError, home_folder, read_words, started_folder};
use mc_desk::{Start, StartMode, StartPlace};
use mc_text::{NoMemory, Path, Text};
use std::alloc::Global;

/// A text that is printed in place of a session.
#[derive(Clone, Copy, Debug, Drop, PartialEq, Eq)]
pub enum Printed {
    /// How the program is called, where the words can't be read, or ask for what isn't built yet.
    Usage,
    /// How it is called, and what its keys do.
    Help,
    Version,
}

impl Printed {
    pub fn text(self) -> &'static str
        ensures { result.now ≡ text_of self }
    {
        match self {
            Printed::Usage => {
                "usage: mc [-b] [-V] [-h] [-P FILE] [-v FILE | -e FILE | --drill N | DIR1 [DIR2]]\n"
            }
            Printed::Help => {
                "usage: mc [-b] [-V] [-h] [-P FILE] [-v FILE | -e FILE | --drill N | DIR1 [DIR2]]\n\
                 F1 help  F2 menu  F3 view  F4 edit  F5 copy  F6 move  F7 mkdir  F8 delete  F9 options  F10 \
                 quit\n"
            }
            Printed::Version => "mc profile 1\n",
        }
    }

    /// The status of a run that printed it.
    pub fn status(self) -> u8
        ensures value { result ≡ status_with self }
        ensures few { result < 2 }
    {
        match self {
            Printed::Usage => 1,
            Printed::Help | Printed::Version => 0,
        }
    }
}

/// What the surroundings of a run say: for what a typed tilde stands, where that is known,
/// and the size of the screen.
#[derive(Debug, Drop)]
pub struct Surroundings {
    pub home: Option<Path>,
    pub lines: u16,
    pub columns: u16,
}

/// What was typed for the paths of a session: the folders of its panels, or the file that is viewed.
#[derive(Debug, Drop)]
pub enum Typed {
    Panels { left: Text, right: Text },
    File(Text),
}

impl Typed {
    /// What was typed for a path. A session of panels views no file; for that it has the left panel's word.
    pub fn word_for(&self, place: StartPlace) -> &str
        ensures { result.now ≡ word_of place self.now }
    {
        match self {
            Typed::Panels { left, right } => match place {
                StartPlace::Left => left.0.as_str(),
                StartPlace::Right => right.0.as_str(),
                StartPlace::File => left.0.as_str(),
            },
            Typed::File(word) => word.0.as_str(),
        }
    }
}

/// How a run begins.
#[derive(Debug, Drop)]
pub enum Beginning {
    Print(Printed),
    Session { start: Start, typed: Typed },
}

/// How a run on these words begins.
pub fn beginning_of(alloc: Global, words: &[Text], env: &Env) -> Result<Beginning, NoMemory>
    ensures { IfOk result
        (λ beginning. IsBeginning (surroundings_in env.now) (asked_in env.now.folder words.now) beginning) }
{
    let started = started_folder(alloc, env.folder.0.as_str())?;
    let around = surroundings_of(alloc, env)?;
    match read_words(alloc, words, &started) {
        Ok(asked) => Ok(begun_by(asked, around)),
        Err(WordsError::Usage) => Ok(Beginning::Print(Printed::Usage)),
        Err(WordsError::Memory) => Err(NoMemory),
    }
}

/// What the surroundings say.
#[tactic(auto, unfolding(crate::specs::Beginnings::surroundings_in))]
fn surroundings_of(alloc: Global, env: &Env) -> Result<Surroundings, NoMemory>
    ensures { IfOk result (λ around. around ≡ surroundings_in env.now) }
{
    let home = home_folder(alloc, &env.home)?;
    let size = Size::read(&env.lines, &env.columns);
    Ok(Surroundings {
        home,
        lines: size.lines(),
        columns: size.columns(),
    })
}

/// How a run begins that was asked for, in these surroundings.
fn begun_by(asked: Words, around: Surroundings) -> Beginning
    ensures { IsBeginning around (Some asked) result }
{
    match asked {
        Words::Help => Beginning::Print(Printed::Help),
        Words::Version => Beginning::Print(Printed::Version),
        Words::Panels { left, right } => session(
            StartMode::Panels {
                left: left.path,
                right: right.path,
            },
            Typed::Panels {
                left: left.typed,
                right: right.typed,
            },
            around,
        ),
        Words::View(file) => session(StartMode::View(file.path), Typed::File(file.typed), around),
        Words::NotBuilt => Beginning::Print(Printed::Usage),
    }
}

/// A session that starts so, in these surroundings.
fn session(mode: StartMode, typed: Typed, around: Surroundings) -> Beginning
    ensures { result ≡ Beginning.Session (start_with around mode) typed }
{
    let Surroundings {
        home,
        lines,
        columns,
    } = around;
    Beginning::Session {
        start: Start {
            mode,
            home,
            lines,
            columns,
        },
        typed,
    }
}
