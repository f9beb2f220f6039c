//! The opening of a session: the folders or the file are read, and room is made for the
//! entry that will close it.
ghost use Rattle.std.specs.Prelude.{◌≡◌, ◌≤◌, [], true, false, IfErr, IfOk};
ghost use Rattle.tree_trait.specs.Change.{current};
ghost use Rattle.tree_trait.specs.Answers.{IfKnown, HasRisen};
ghost use Rattle.mc_desk.specs.Outputs.{FitsScreen};
ghost use Rattle.mc_text.specs.Routes.{path_text};
ghost use Rattle.panel_pair.specs.Pairs.{unread_pair};
ghost use Rattle.ui_viewer.specs.Openings.{OpensThing, ReadsToOpen};
ghost use Rattle.mc_desk.specs.Sessions.{IsOpeningIn, OpensPanels, OpensViewer, viewing_alone};
ghost use Rattle.mc_desk.specs.Starts.{is_start_fault};
ghost use Rattle.mc_desk.specs.StartedDesks.{IsOpened, Starts, place_of as place_on};
ghost use Rattle.mc_desk.specs.StartedDesks.{start_error, unread_error, viewed_alone};

use crate::starts::{Start, StartError, StartMode, StartPlace};
use mc_text::{NoMemory, Path};
use mc_ui::{Leaving, Ui};
use panel_pair::{Panels, Side, Unopened};
use resolving::ResolveError;
use screen_draw::Screen;
use session_log::Log;
use std::alloc::Global;
use std::convert::AsStr;
use tree_trait::{ReadTree, Tree, TreeError};
use ui_viewer::{Opening, ViewerMode, open_thing};

/// The screen of a session at a second of the clock, as it begins, with no box open, and an empty log.
pub fn open<T: Tree>(
    alloc: Global,
    tree: &mut T,
    start: Start,
    now: u64,
) -> Result<(Ui, Log, Screen), StartError>
    ensures opened { IfOk result (λ parts. IsOpened (T.contents tree.old) start parts.0 parts.1) }
    ensures fresh { IfOk result (λ parts. parts.2.has_drawn ≡ false) }
    ensures fits { IfOk result (λ parts. FitsScreen parts.2.grid parts.0) }
    ensures cause { IfKnown (T.contents tree.old) (λ log. Starts (current log) start.mode result) }
    ensures fault { IfErr result (λ error. is_start_fault error ≡ true
        → HasRisen (T.fault_count tree.old) (T.fault_count tree.new)) }
    ensures same { T.contents tree.new ≡ T.contents tree.old }
    ensures later { T.fault_count tree.old ≤ T.fault_count tree.new }
{
    let log = match Log::new(alloc) {
        Ok(log) => log,
        Err(NoMemory) => return Err(StartError::Memory),
    };
    let Start {
        mode,
        home,
        lines,
        columns,
    } = start;
    let screen = match Screen::new(alloc, lines, columns) {
        Ok(screen) => screen,
        Err(NoMemory) => return Err(StartError::Memory),
    };
    match open_screen(alloc, tree, mode, home, lines, columns, now) {
        Ok(ui) => Ok((ui, log, screen)),
        Err(error) => Err(error),
    }
}

/// What stands on the screen as a session begins.
fn open_screen<T: ReadTree>(
    alloc: Global,
    tree: &mut T,
    mode: StartMode,
    home: Option<Path>,
    lines: u16,
    columns: u16,
    now: u64,
) -> Result<Ui, StartError>
    ensures opened { IfOk result (λ ui. IsOpeningIn mode (T.contents tree.old) home lines columns ui) }
    ensures sized { IfOk result (λ ui. (ui.lines ≡ lines) × (ui.columns ≡ columns)) }
    ensures cause { IfKnown (T.contents tree.old) (λ log. Starts (current log) mode result) }
    ensures fault { IfErr result (λ error. is_start_fault error ≡ true
        → HasRisen (T.fault_count tree.old) (T.fault_count tree.new)) }
    ensures same { T.contents tree.new ≡ T.contents tree.old }
    ensures later { T.fault_count tree.old ≤ T.fault_count tree.new }
{
    match mode {
        StartMode::Panels { left, right } => open_panels(
            alloc, tree, &left, &right, home, lines, columns, now,
        ),
        StartMode::View(path) => open_viewer(alloc, tree, &path, home, lines, columns, now),
    }
}

/// Two panels, of the folders that their paths lead to. The left one is read first.
fn open_panels<T: ReadTree>(
    alloc: Global,
    tree: &mut T,
    left: &Path,
    right: &Path,
    home: Option<Path>,
    lines: u16,
    columns: u16,
    now: u64,
) -> Result<Ui, StartError>
    ensures opened { IfOk result (λ ui.
        OpensPanels (T.contents tree.old) left.now right.now home lines columns ui) }
    ensures cause { IfKnown (T.contents tree.old) (λ log.
        Starts (current log) (StartMode.Panels left.now right.now) result) }
    ensures fault { IfErr result (λ error. is_start_fault error ≡ true
        → HasRisen (T.fault_count tree.old) (T.fault_count tree.new)) }
    ensures same { T.contents tree.new ≡ T.contents tree.old }
    ensures later { T.fault_count tree.old ≤ T.fault_count tree.new }
{
    match Panels::open(alloc, tree, left, right) {
        Ok(panels) => Ok(Ui::new(panels, home, lines, columns, now)),
        Err(Unopened { side, error }) => Err(refused(place_of(side), error)),
    }
}

/// The viewer on the file that a path leads to.
fn open_viewer<T: ReadTree>(
    alloc: Global,
    tree: &mut T,
    path: &Path,
    home: Option<Path>,
    lines: u16,
    columns: u16,
    now: u64,
) -> Result<Ui, StartError>
    ensures opened { IfOk result (λ ui. OpensViewer (T.contents tree.old) path.now home lines columns ui) }
    ensures cause { IfKnown (T.contents tree.old) (λ log.
        Starts (current log) (StartMode.View path.now) result) }
    ensures fault { IfErr result (λ error. is_start_fault error ≡ true
        → HasRisen (T.fault_count tree.old) (T.fault_count tree.new)) }
    ensures same { T.contents tree.new ≡ T.contents tree.old }
    ensures later { T.fault_count tree.old ≤ T.fault_count tree.new }
{
    let panels = match Panels::unread(alloc) {
        Ok(panels) => panels,
        Err(NoMemory) => return Err(StartError::Memory),
    };
    match open_file(alloc, tree, path, lines, columns) {
        Ok(opening) => view_alone(panels, opening, home, lines, columns, now),
        Err(NoMemory) => Err(StartError::Memory),
    }
}

/// Opens the file that a path leads to.
fn open_file<T: ReadTree>(
    alloc: Global,
    tree: &mut T,
    path: &Path,
    lines: u16,
    columns: u16,
) -> Result<Opening, NoMemory>
    ensures opens { IfOk result (OpensThing (T.contents tree.old) [] (path_text path.now) lines columns) }
    ensures reads { ReadsToOpen result (T.contents tree.old) (T.contents tree.new) (T.fault_count tree.old)
        (T.fault_count tree.new) }
{
    let text = path.text(alloc)?;
    open_thing(
        alloc,
        tree,
        &Path::root(alloc),
        text.as_str(),
        lines,
        columns,
    )
}

/// What opening the file came to: it is viewed alone, or the session doesn't start.
fn view_alone(
    panels: Panels,
    opening: Opening,
    home: Option<Path>,
    lines: u16,
    columns: u16,
    now: u64,
) -> Result<Ui, StartError>
    requires { panels ≡ unread_pair }
    ensures { result ≡ viewed_alone opening home lines columns now }
{
    match opening {
        Opening::Viewed(mode) => Ok(viewing(panels, mode, home, lines, columns, now)),
        Opening::NoWay(error) => Err(refused(StartPlace::File, error)),
        Opening::Unread(path, error) => Err(unread(path, error)),
    }
}

/// The file is viewed, and leaving the viewer ends the session.
fn viewing(
    panels: Panels,
    mode: ViewerMode,
    home: Option<Path>,
    lines: u16,
    columns: u16,
    now: u64,
) -> Ui
    requires { panels ≡ unread_pair }
    ensures { result ≡ viewing_alone mode home lines columns now }
{
    let mut ui = Ui::new(panels, home, lines, columns, now);
    ui.view(mode, Leaving::Ends);
    ui
}

/// The place of a panel's path.
fn place_of(side: Side) -> StartPlace
    ensures { result ≡ place_on side }
{
    match side {
        Side::Left => StartPlace::Left,
        Side::Right => StartPlace::Right,
    }
}

/// Why a path leads to nothing that can be read as it is wanted.
fn refused(place: StartPlace, error: ResolveError) -> StartError
    ensures { result ≡ start_error place error }
{
    match error {
        ResolveError::Memory => StartError::Memory,
        error => StartError::Resolve(place, error),
    }
}

/// Why a file can't be read.
fn unread(path: Path, error: TreeError) -> StartError
    ensures { result ≡ unread_error path error }
{
    match error {
        TreeError::Memory => StartError::Memory,
        TreeError::Fault => StartError::Resolve(StartPlace::File, ResolveError::Fault),
        error => StartError::Resolve(StartPlace::File, ResolveError::Tree(path, error)),
    }
}
