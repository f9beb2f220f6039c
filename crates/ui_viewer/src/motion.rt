//! What is wanted of the viewer: a step, or a search.
ghost use Rattle.std.specs.Prelude.{◌≡◌, Some, Ok, IfErr, IfOk, OnOk, OnErr};
ghost use Rattle.std.specs.Option.{option_map};
ghost use Rattle.tree_trait.specs.Answers.{IfKnown, HasCause};
ghost use Rattle.mc_viewer.specs.Searches.{IsMissed, IsSearchError};
ghost use Rattle.mc_viewer.specs.ViewerSteps.{page_of};
ghost use Rattle.mc_viewer.specs.Viewing.{held_bytes, AsTheTreeSays, IfRead, IsReadable};
ghost use Rattle.ui_viewer.specs.Motions.{LooksAtNothing, MayRefuse, Reads, led_viewing, motion_of};
ghost use Rattle.ui_viewer.specs.Numbers.{number_in};

use crate::asking::Question;
use crate::number::number_in;
use mc_text::{Bytes, Rows, Text};
use mc_viewer::{Search, ViewError, ViewStep, Viewer};
use std::alloc::Global;
use std::convert::AsStr;
use tree_trait::{ReadTree, TreeError};

/// What is wanted of the viewer.
#[derive(Debug, Drop)]
pub enum Motion {
    Step(ViewStep),
    /// To what is found from the top on.
    Search(Search),
    /// To what is found behind the place that was found last.
    SearchNext,
}

/// What an answer to a question wants of the viewer: nothing where a place was asked for, and the text
/// is no number of 64 bits.
pub fn motion_of(question: Question, text: Text) -> Option<Motion>
    ensures { result ≡ motion_of question text }
{
    match question {
        Question::Line => to_line(number_in(text.as_str())),
        Question::Byte => to_byte(number_in(text.as_str())),
        Question::PlainText => Some(Motion::Search(Search::Plain(bytes_of(text)))),
        Question::Expression => Some(Motion::Search(Search::Regex(text))),
    }
}

/// The step to a line, where one was typed.
fn to_line(line: Option<u64>) -> Option<Motion>
    ensures { result ≡ option_map (λ n. Motion.Step (ViewStep.Line n)) line }
{
    match line {
        Some(line) => Some(Motion::Step(ViewStep::Line(line))),
        None => None,
    }
}

/// The step to a byte, where one was typed.
fn to_byte(byte: Option<u64>) -> Option<Motion>
    ensures { result ≡ option_map (λ n. Motion.Step (ViewStep.Byte n)) byte }
{
    match byte {
        Some(byte) => Some(Motion::Step(ViewStep::Byte(byte))),
        None => None,
    }
}

/// The bytes of a text.
fn bytes_of(text: Text) -> Bytes
    ensures { result ≡ text }
{
    let Text(text) = text;
    Bytes(text.into_bytes())
}

/// Does what is wanted of the viewer, and gives the rows that are shown then. Where that is
/// refused it stays as it was.
pub fn page_after<T: ReadTree>(
    viewer: &mut Viewer,
    alloc: Global,
    tree: &mut T,
    motion: Motion,
) -> Result<Rows, ViewError>
    ensures led { IfKnown (held_bytes (T.contents tree.old) viewer.old.subject) (λ bytes.
        OnOk result (led_viewing motion bytes viewer.old ≡ Ok viewer.new)) }
    ensures missed { IfKnown (held_bytes (T.contents tree.old) viewer.old.subject) (λ bytes.
        IfErr result (IsMissed (led_viewing motion bytes viewer.old))) }
    ensures shown { IfKnown (held_bytes (T.contents tree.old) viewer.old.subject) (λ bytes.
        IfOk result (λ rows. rows ≡ page_of bytes viewer.new.state)) }
    ensures subject { viewer.new.subject ≡ viewer.old.subject }
    ensures stays { OnErr result (viewer.new ≡ viewer.old) }
    ensures still { LooksAtNothing (Some motion) viewer.old → tree.new ≡ tree.old }
    ensures readable { IfKnown (T.contents tree.old) (λ log.
        IfRead result (Reads motion viewer.old → IsReadable log viewer.old.subject)) }
    ensures refused { IfKnown (T.contents tree.old) (λ log.
        IfErr result (AsTheTreeSays log viewer.old.subject)) }
    ensures kinds { IfErr result (MayRefuse motion) }
    ensures same { T.contents tree.new ≡ T.contents tree.old }
    ensures cause { HasCause (ViewError.Tree TreeError.Fault) (T.fault_count tree.old)
        (T.fault_count tree.new) result }
{
    match motion {
        Motion::Step(step) => viewer.step_to_page(alloc, tree, step),
        Motion::Search(what) => viewer.search_to_page(alloc, tree, what),
        Motion::SearchNext => viewer.next_to_page(alloc, tree),
    }
}
