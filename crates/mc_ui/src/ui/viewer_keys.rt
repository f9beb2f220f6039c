//! The viewer: how F3 opens it, and its keys. A viewed file was taken out while its key is worked,
//! and is put back after it.
ghost use Rattle.std.specs.Prelude.{◌≡◌, [], ◌<◌, false, None, Some, OnErr, IfOk, vec_len, vec_capacity};
ghost use Rattle.panel_state.specs.Goings.{way_of};
ghost use Rattle.panel_state.specs.Panels.{current_name};
ghost use Rattle.ui_plans.specs.Reading.{ReadsTree};
ghost use Rattle.ui_viewer.specs.Openings.{OpensThing};
ghost use Rattle.ui_viewer.specs.Motions.{LooksAtNothing};
ghost use Rattle.ui_viewer.specs.ViewerScreens.{KeyLeads as ViewerKeyLeads, wanted_motion};
ghost use Rattle.mc_ui.specs.declared.asks.KeyAct.{KeyAct as KeyActType};
ghost use Rattle.mc_ui.specs.declared.ui.viewer_keys.ViewerDeed.{ViewerDeed as ViewerDeedType};
ghost use Rattle.mc_ui.specs.Viewings.{goes_on as goes_on_by, opening_refusals};
ghost use Rattle.mc_ui.specs.Viewings.{told_by as told_of_act, viewed_path as path_viewed};
ghost use Rattle.mc_ui.specs.Screens.{HasSameSize, ViewerLeads, Views, ViewsNamed, after_act};
ghost use Rattle.mc_ui.specs.Screens.{after_leaving, after_opening, is_request, with_ask};

use super::Ui;
use super::panel_keys::{asking, asking_nothing};
use crate::asks::{Ask, KeyAct};
use crate::viewing::{Leaving, ViewedFile};
use key_screen::Key;
use mc_text::{NoMemory, Path};
use mc_viewer::{Subject, ViewError};
use panel_pair::PanelCommand;
use panel_state::Panel;
use session_entries::{Refusal, Refusals};
use std::alloc::Global;
use tree_trait::ReadTree;
use ui_viewer::{Opening, ViewerAct, ViewerMode, open_thing};

/// What a key of the viewer came to, and what the tree refused to it.
#[derive(Debug, Drop)]
struct ViewerDeed {
    act: ViewerAct,
    refusals: Refusals,
}

/// What telling a refusal takes: the path of the file that is viewed, and a list with room for one.
#[derive(Debug, Drop)]
struct TellingRoom {
    path: Option<Path>,
    list: Vec<Refusal>,
}

impl Ui {
    /// Goes where Enter does, where that leads to a folder; else views what stands under the cursor.
    pub(super) fn view_current<T: ReadTree>(
        &mut self,
        alloc: Global,
        tree: &mut T,
    ) -> Result<KeyAct, NoMemory>
        ensures leads { IfOk result (λ act. Views (T.contents tree.old) act.refusals self.old self.new) }
        ensures asks { IfOk result (λ act. act.ask ≡ Ask.Nothing) }
        ensures size { HasSameSize self.old self.new }
        ensures settled { self.new.planned ≡ None }
        ensures lost { OnErr result (self.new ≡ self.old) }
        ensures reads { ReadsTree (λ (act : KeyActType). act.refusals) result (T.contents tree.old)
            (T.contents tree.new)
            (T.fault_count tree.old) (T.fault_count tree.new) }
    {
        if goes_on(self.panels().current()) {
            return self.work(alloc, tree, PanelCommand::Enter);
        }
        self.view_named(alloc, tree)
    }

    /// Views the thing under the cursor, or the one to which it leads as a link, if there is a name there.
    fn view_named<T: ReadTree>(&mut self, alloc: Global, tree: &mut T) -> Result<KeyAct, NoMemory>
        ensures leads { IfOk result (λ act. ViewsNamed (current_name self.old.panels.current)
            (T.contents tree.old) act.refusals self.old self.new) }
        ensures asks { IfOk result (λ act. act.ask ≡ Ask.Nothing) }
        ensures size { HasSameSize self.old self.new }
        ensures settled { self.new.planned ≡ None }
        ensures lost { OnErr result (self.new ≡ self.old) }
        ensures reads { ReadsTree (λ (act : KeyActType). act.refusals) result (T.contents tree.old)
            (T.contents tree.new)
            (T.fault_count tree.old) (T.fault_count tree.new) }
    {
        let _dialog = &self.dialog;
        let panel = self.panels().current();
        let Some(name) = panel.current_name() else {
            return Ok(asking_nothing(alloc));
        };
        let opening = open_named(
            alloc,
            tree,
            panel.folder(),
            name.text(),
            self.lines(),
            self.columns(),
        )?;
        self.show_opening(alloc, opening)
    }

    /// Shows what opening a thing came to: it is viewed, or a message says why it isn't.
    fn show_opening(&mut self, alloc: Global, opening: Opening) -> Result<KeyAct, NoMemory>
        ensures after { IfOk result (λ _act. self.new ≡ after_opening opening self.old) }
        ensures act { IfOk result (λ act.
            act ≡ record { ask = Ask.Nothing; refusals = opening_refusals opening }) }
        ensures size { HasSameSize self.old self.new }
        ensures settled { self.new.planned ≡ None }
        ensures lost { OnErr result (self.new ≡ self.old) }
    {
        let _dialog = &self.dialog;
        match opening {
            Opening::Viewed(mode) => {
                self.view(mode, Leaving::ToPanels);
                Ok(asking_nothing(alloc))
            }
            Opening::NoWay(why) => self.refuse(alloc, Refusal::Resolve(why)),
            Opening::Unread(path, why) => self.refuse(alloc, Refusal::Read(path, why)),
        }
    }

    /// A key while a file is viewed.
    pub(super) fn key_in_viewer<T: ReadTree>(
        &mut self,
        alloc: Global,
        tree: &mut T,
        viewed: ViewedFile,
        key: Key,
    ) -> Result<KeyAct, NoMemory>
        ensures leads { IfOk result (λ act.
            ViewerLeads viewed (T.contents tree.old) key act.refusals self.old (with_ask act.ask self.new)) }
        ensures unasked { IfOk result (λ act. is_request act.ask ≡ false) }
        ensures size { HasSameSize self.old self.new }
        ensures settled { self.new.planned ≡ None }
        ensures still { LooksAtNothing (wanted_motion key viewed.mode) viewed.mode.viewer
            → tree.new ≡ tree.old }
        ensures lost { OnErr result (self.new ≡ record self.old { viewing = Some viewed }) }
        ensures reads { ReadsTree (λ (act : KeyActType). act.refusals) result (T.contents tree.old)
            (T.contents tree.new)
            (T.fault_count tree.old) (T.fault_count tree.new) }
    {
        let _dialog = &self.dialog;
        let ViewedFile { mode, leaving } = viewed;
        let mut mode = mode;
        let deed = work_viewer(alloc, tree, &mut mode, key);
        self.view(mode, leaving);
        Ok(self.leave_or_stay(leaving, deed?))
    }

    /// Follows what a key of the viewer came to: it is left, or stays.
    fn leave_or_stay(&mut self, leaving: Leaving, deed: ViewerDeed) -> KeyAct
        ensures after { with_ask result.ask self.new ≡ after_act deed.act leaving self.old }
        ensures refusals { result.refusals ≡ deed.refusals }
        ensures unasked { is_request result.ask ≡ false }
        ensures size { HasSameSize self.old self.new }
        ensures settled { self.new.planned ≡ None }
    {
        let _dialog = &self.dialog;
        let ViewerDeed { act, refusals } = deed;
        match act {
            ViewerAct::Stays => KeyAct {
                ask: Ask::Nothing,
                refusals,
            },
            ViewerAct::Refused(_) => KeyAct {
                ask: Ask::Nothing,
                refusals,
            },
            ViewerAct::Leaves => self.leave(leaving, refusals),
        }
    }

    /// Leaves the viewer.
    fn leave(&mut self, leaving: Leaving, refusals: Refusals) -> KeyAct
        ensures after { with_ask result.ask self.new ≡ after_leaving leaving self.old }
        ensures refusals { result.refusals ≡ refusals }
        ensures unasked { is_request result.ask ≡ false }
        ensures size { HasSameSize self.old self.new }
        ensures settled { self.new.planned ≡ None }
    {
        let _dialog = &self.dialog;
        match leaving {
            Leaving::ToPanels => {
                self.viewing = None;
                KeyAct {
                    ask: Ask::Nothing,
                    refusals,
                }
            }
            Leaving::Ends => KeyAct {
                ask: Ask::End,
                refusals,
            },
        }
    }
}

/// Whether Enter leads from the current row to a folder.
fn goes_on(panel: &Panel) -> bool
    ensures { result ≡ goes_on_by (way_of panel.now) }
{
    match panel.listing().item(panel.cursor()) {
        Some(item) => item.leads_to_folder(),
        None => panel.cursor() < panel.row_count(),
    }
}

/// Opens the thing of a name in a folder on a screen of so many lines and columns.
fn open_named<T: ReadTree>(
    alloc: Global,
    tree: &mut T,
    folder: &Path,
    name: &str,
    lines: u16,
    columns: u16,
) -> Result<Opening, NoMemory>
    ensures opens { IfOk result (OpensThing (T.contents tree.old) folder.now name.now lines columns) }
    ensures reads { ReadsTree opening_refusals result (T.contents tree.old) (T.contents tree.new)
        (T.fault_count tree.old) (T.fault_count tree.new) }
{
    open_thing(alloc, tree, folder, name, lines, columns)
}

/// Works a key of the viewer. What telling a refusal takes is found before, so that it stays as it was
/// where there is no memory.
fn work_viewer<T: ReadTree>(
    alloc: Global,
    tree: &mut T,
    mode: &mut ViewerMode,
    key: Key,
) -> Result<ViewerDeed, NoMemory>
    ensures leads { IfOk result (λ deed.
        ViewerKeyLeads (T.contents tree.old) key deed.act mode.old mode.new) }
    ensures told { IfOk result (λ deed.
        deed.refusals ≡ told_of_act deed.act (path_viewed mode.old.viewer.subject)) }
    ensures still { LooksAtNothing (wanted_motion key mode.old) mode.old.viewer → tree.new ≡ tree.old }
    ensures lost { OnErr result (mode.new ≡ mode.old) }
    ensures reads { ReadsTree (λ (deed : ViewerDeedType). deed.refusals) result (T.contents tree.old)
        (T.contents tree.new)
        (T.fault_count tree.old) (T.fault_count tree.new) }
{
    let room = telling_room(alloc, mode.subject())?;
    let act = mode.key(alloc, tree, key)?;
    Ok(ViewerDeed {
        act,
        refusals: told_by(act, room),
    })
}

/// Finds what telling a refusal takes.
fn telling_room(alloc: Global, subject: &Subject) -> Result<TellingRoom, NoMemory>
    ensures path { IfOk result (λ room. room.path ≡ path_viewed subject.now) }
    ensures empty { IfOk result (λ room. room.list.items ≡ []) }
    ensures free { IfOk result (λ room. vec_len room.list < vec_capacity room.list) }
{
    let path = viewed_path(alloc, subject)?;
    let list = Vec::with_capacity(alloc, 1)?;
    Ok(TellingRoom { path, list })
}

/// The path of what is viewed, where it is a file.
fn viewed_path(alloc: Global, subject: &Subject) -> Result<Option<Path>, NoMemory>
    ensures { IfOk result (λ path. path ≡ path_viewed subject.now) }
{
    match subject {
        Subject::File(path) => Ok(Some(path.copy(alloc)?)),
        Subject::Output(_) => Ok(None),
    }
}

/// What the tree refused to a key of the viewer.
fn told_by(act: ViewerAct, room: TellingRoom) -> Refusals
    requires empty { room.list.items ≡ [] }
    requires free { vec_len room.list < vec_capacity room.list }
    ensures { result ≡ told_of_act act room.path }
{
    let TellingRoom { path, list } = room;
    let mut list = list;
    if let (ViewerAct::Refused(ViewError::Tree(error)), Some(path)) = (act, path) {
        let _told = list.push(Refusal::Read(path, error));
    }
    Refusals(list)
}
