//! Things are sought: how the box opens, and its keys. It was taken out while it is worked in, and is
//! put back where it stays.
ghost use Rattle.std.specs.Prelude.{◌≡◌, None, OnErr, OnOk, IfOk};
ghost use Rattle.ui_plans.specs.Reading.{ReadsTree};
ghost use Rattle.mc_ui.specs.declared.asks.Ask.{Ask};
ghost use Rattle.mc_ui.specs.declared.asks.KeyAct.{KeyAct as KeyActType};
ghost use Rattle.mc_ui.specs.Boxes.{FindBox, NoBox, seen_box};
ghost use Rattle.mc_ui.specs.Findings.{find_refusal as refusal_by};
ghost use Rattle.mc_ui.specs.Screens.{FindLeads, GoesToFound, HasSameSize, find_asked};

use super::Ui;
use super::panel_keys::asking_nothing;
use crate::asks::KeyAct;
use crate::dialog::Dialog;
use key_screen::Key;
use mc_text::{NoMemory, Path};
use panel_pair::PanelCommand;
use resolving::ResolveError;
use session_entries::{Refusal, TypedError};
use std::alloc::Global;
use tree_trait::ReadTree;
use ui_find::{FindAct, FindMode, FindRefusal};

impl Ui {
    /// Asks what is to be sought.
    pub(super) fn ask_find(&mut self, alloc: Global) -> Result<(), NoMemory>
        ensures opened { OnOk result (self.new ≡ record self.old { over = FindBox (find_asked self.old) }) }
        ensures lost { OnErr result (self.new ≡ self.old) }
    {
        let panel = self.panels().current();
        let patterns = self.panels().patterns();
        let hidden = panel.wish().hidden;
        let find = FindMode::open(
            alloc,
            self.lines(),
            panel.folder(),
            self.home(),
            patterns,
            hidden,
        )?;
        self.show_box(Dialog::Find(find));
        Ok(())
    }

    /// A key while things are sought.
    pub(super) fn key_in_find<T: ReadTree>(
        &mut self,
        alloc: Global,
        tree: &mut T,
        find: FindMode,
        key: Key,
    ) -> Result<KeyAct, NoMemory>
        requires clear { self.old.over ≡ NoBox }
        ensures leads { IfOk result (λ act.
            FindLeads find (T.contents tree.old) key act.refusals self.old self.new) }
        ensures asks { IfOk result (λ act. act.ask ≡ Ask.Nothing) }
        ensures size { HasSameSize self.old self.new }
        ensures settled { self.new.planned ≡ None }
        ensures lost { OnErr result (self.new ≡ record self.old { over = FindBox find }) }
        ensures reads { ReadsTree (λ (act : KeyActType). act.refusals) result (T.contents tree.old)
            (T.contents tree.new)
            (T.fault_count tree.old) (T.fault_count tree.new) }
    {
        let _lines = &self.lines;
        let mut find = find;
        let act = find.key(alloc, tree, key);
        match act {
            Ok(FindAct::Stays) => {
                self.show_box(Dialog::Find(find));
                Ok(asking_nothing(alloc))
            }
            Ok(FindAct::Refused(why)) => {
                self.show_box(Dialog::Find(find));
                self.refuse(alloc, find_refusal(why))
            }
            Ok(FindAct::Goes(path)) => self.go_to_found(alloc, tree, find, path),
            Ok(FindAct::Leaves) => Ok(asking_nothing(alloc)),
            Err(error) => {
                self.show_box(Dialog::Find(find));
                Err(error)
            }
        }
    }

    /// Goes to a found path. Where that is refused the list stays.
    fn go_to_found<T: ReadTree>(
        &mut self,
        alloc: Global,
        tree: &mut T,
        find: FindMode,
        path: Path,
    ) -> Result<KeyAct, NoMemory>
        requires clear { self.old.over ≡ NoBox }
        ensures leads { IfOk result (λ act.
            GoesToFound path find (T.contents tree.old) act.refusals self.old self.new) }
        ensures asks { IfOk result (λ act. act.ask ≡ Ask.Nothing) }
        ensures size { HasSameSize self.old self.new }
        ensures settled { self.new.planned ≡ None }
        ensures lost { OnErr result (self.new ≡ record self.old { over = FindBox find }) }
        ensures reads { ReadsTree (λ (act : KeyActType). act.refusals) result (T.contents tree.old)
            (T.contents tree.new)
            (T.fault_count tree.old) (T.fault_count tree.new) }
    {
        let page = self.page();
        match self
            .panels
            .work(alloc, tree, page, PanelCommand::GoTo(path))
        {
            Ok(()) => Ok(asking_nothing(alloc)),
            Err(ResolveError::Memory) => {
                self.show_box(Dialog::Find(find));
                Err(NoMemory)
            }
            Err(error) => {
                self.show_box(Dialog::Find(find));
                self.refuse(alloc, Refusal::Resolve(error))
            }
        }
    }
}

/// Why what was typed isn't taken, as it is told.
fn find_refusal(why: FindRefusal) -> Refusal
    ensures { result ≡ refusal_by why }
{
    match why {
        FindRefusal::NoWay(error) => Refusal::Resolve(error),
        FindRefusal::NoPattern => Refusal::Typed(TypedError::BadPattern),
    }
}
