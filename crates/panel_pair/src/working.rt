//! What commands make of the panels.
ghost use Rattle.std.specs.Prelude.{◌≡◌, ◌<◌, ◌^◌, not, OnOk, OnErr, IfErr};
ghost use Rattle.tree_trait.specs.Answers.{IfKnown, HasCause};
ghost use Rattle.resolving.specs.Errors.{CarriesCause};
ghost use Rattle.panel_state.specs.declared.arranging.Arrangement.TheVariants.{Hidden};
ghost use Rattle.panel_state.specs.Arrangements.{arranged_again, HasSameItems};
ghost use Rattle.panel_state.specs.Readings.{outcome};
ghost use Rattle.panel_pair.specs.Commands.{CommandDone, CommandReads, switched_panels};
ghost use Rattle.panel_pair.specs.Pairs.{other_kind as kind_across};
ghost use Rattle.panel_pair.specs.Readings.{ReadsTree, refused_in};

use crate::command::PanelCommand;
use crate::panels::Panels;
use mc_text::NoMemory;
use panel_state::{Panel, Turn, compare_panels};
use resolving::ResolveError;
use std::alloc::Global;
use std::mem;
use tagging::PatternKind;
use tree_trait::ReadTree;

impl Panels {
    /// Does what a command says; a page has so many rows. What is refused leaves both panels as they were.
    ///
    /// A command that moves a cursor, tags the current name or changes sides takes the time of a few looks,
    /// however long the listings are. One that leads to a folder reads it, with a look for each child.
    /// `Arrange` and `ToggleHidden` take the number of shown names times its logarithm; patterns and the
    /// comparison go over the shown names once.
    pub fn work<T: ReadTree>(
        &mut self,
        alloc: Global,
        tree: &mut T,
        page: usize,
        command: PanelCommand,
    ) -> Result<(), ResolveError>
        requires { page < 2 ^ 16 }

        // What becomes of the panels.
        ensures done { OnOk result (CommandDone command page self.old self.new) }
        ensures refused { OnErr result (self.new ≡ self.old) }

        // What is read of the tree, and what that refuses.
        ensures answer { IfKnown (T.contents tree.old) (λ log.
            CommandReads command log self.old.current (outcome result self.new.current)) }
        ensures reads { ReadsTree (refused_in result) (T.contents tree.old) (T.contents tree.new)
            (T.fault_count tree.old) (T.fault_count tree.new) }
        ensures carried { IfErr result CarriesCause }
    {
        match self.carry_out(alloc, tree, page, command) {
            Ok(()) => Ok(()),
            Err(error) => Err(error),
        }
    }

    /// Each command is a row.
    fn carry_out<T: ReadTree>(
        &mut self,
        alloc: Global,
        tree: &mut T,
        page: usize,
        command: PanelCommand,
    ) -> Result<(), ResolveError>
        requires { page < 2 ^ 16 }
        ensures done { OnOk result (CommandDone command page self.old self.new) }
        ensures refused { OnErr result (self.new ≡ self.old) }
        ensures answer { IfKnown (T.contents tree.old) (λ log.
            CommandReads command log self.old.current (outcome result self.new.current)) }
        ensures same { T.contents tree.new ≡ T.contents tree.old }
        ensures cause { HasCause ResolveError.Fault (T.fault_count tree.old) (T.fault_count tree.new) result }
        ensures carried { IfErr result CarriesCause }
    {
        match command {
            PanelCommand::Move(base) => Ok(self.current.move_by(page, base)),
            PanelCommand::SwitchPanel => Ok(self.switch()),
            PanelCommand::SwapPanels => Ok(mem::swap(&mut self.current, &mut self.other)),
            PanelCommand::Enter => {
                self.current.enter(alloc, tree, page)?;
                Ok(())
            }
            PanelCommand::ReadAgain => Ok(self.current.read_again(alloc, tree, page)?),
            PanelCommand::Back => {
                self.current.turn(alloc, tree, page, Turn::Earlier)?;
                Ok(())
            }
            PanelCommand::Forward => {
                self.current.turn(alloc, tree, page, Turn::Later)?;
                Ok(())
            }
            PanelCommand::GoTo(path) => Ok(self.current.go_to_path(alloc, tree, page, path)?),
            PanelCommand::Toggle => Ok(self.current.toggle(alloc, page)?),
            PanelCommand::Invert => Ok(self.current.invert(alloc)?),
            PanelCommand::Select(pattern) => Ok(self.current.select(alloc, &pattern)?),
            PanelCommand::Unselect(pattern) => Ok(self.current.unselect(alloc, &pattern)?),
            PanelCommand::Compare => Ok(compare_panels(alloc, &mut self.current, &mut self.other)?),
            PanelCommand::Arrange(arrangement) => Ok(
                self.current.arrange(alloc, page, arrangement)?,
            ),
            PanelCommand::ShowColumns(format) => Ok(self.current.set_format(page, format)),
            PanelCommand::ShowBrief => Ok(self.current.set_brief(page)),
            PanelCommand::ToggleHidden => Ok(toggle_hidden(
                alloc,
                page,
                &mut self.current,
                &mut self.other,
            )?),
            PanelCommand::SwitchPatterns => {
                self.patterns = other_kind(self.patterns);
                Ok(())
            }
        }
    }

    /// Makes the other panel current. Both stay on their sides.
    fn switch(&mut self)
        ensures { self.new ≡ switched_panels self.old }
    {
        mem::swap(&mut self.current, &mut self.other);
        self.side = self.side.opposite();
    }
}

/// The other kind of pattern.
fn other_kind(kind: PatternKind) -> PatternKind
    ensures { result ≡ kind_across kind }
{
    match kind {
        PatternKind::Shell => PatternKind::Regex,
        PatternKind::Regex => PatternKind::Shell,
    }
}

/// Shows the hidden names of both panels, or shows them no more, whichever the first one doesn't. What
/// needs memory comes first, so that both stay as they were where it is wanting.
fn toggle_hidden(
    alloc: Global,
    page: usize,
    current: &mut Panel,
    other: &mut Panel,
) -> Result<(), NoMemory>
    requires { page < 2 ^ 16 }
    ensures current { OnOk result (current.new
        ≡ arranged_again page (Hidden (not current.old.wish.hidden)) current.new.listing current.old) }
    ensures other { OnOk result
        (other.new ≡ arranged_again page (Hidden (not current.old.wish.hidden)) other.new.listing other.old) }
    ensures current_items { OnOk result (HasSameItems current.old.listing current.new.listing) }
    ensures other_items { OnOk result (HasSameItems other.old.listing other.new.listing) }
    ensures current_kept { OnErr result (current.new ≡ current.old) }
    ensures other_kept { OnErr result (other.new ≡ other.old) }
{
    let hidden = !current.wish().hidden;
    let on_current = current.plan_hidden(alloc, hidden)?;
    let on_other = other.plan_hidden(alloc, hidden)?;
    current.take_hidden(page, hidden, on_current);
    other.take_hidden(page, hidden, on_other);
    Ok(())
}
