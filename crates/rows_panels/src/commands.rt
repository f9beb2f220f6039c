//! What a row asks of the panels.
use crate::frames::tell_panes;
use crate::telling::{tell_panels, tell_refusal, tell_selection, tell_unread};
use key_screen::Base;
use mc_text::Path;
use panel_listing::Order;
use panel_pair::{PanelCommand, Panels};
use panel_state::{Arrangement, PanelFormat};
use rows_page::{Page, two_fields};
use tagging::Pattern;
use tree_trait::Tree;

/// How many rows a column of the panels has.
const PAGE: usize = 4;

/// What comes of a row.
pub fn tell_command<T: Tree>(page: &mut Page, tree: &mut T, panels: &mut Panels, row: &str) {
    let (word, field) = two_fields(row, ' ');
    match word {
        "look" => tell_look(page, tree, panels),
        "selection" => tell_selection(page, panels),
        "panes" => tell_panes(page, panels, field),
        "remove" => remove(page, tree, field),
        _ => tell_work(page, tree, panels, word, field),
    }
}

fn tell_work<T: Tree>(page: &mut Page, tree: &mut T, panels: &mut Panels, word: &str, field: &str) {
    match command_of(page, word, field) {
        Some(command) => match panels.work(page.alloc(), tree, PAGE, command) {
            Ok(()) => tell_panels(page, panels),
            Err(error) => tell_refusal(page, &error),
        },
        None => page.fail(),
    }
}

fn tell_look<T: Tree>(page: &mut Page, tree: &mut T, panels: &mut Panels) {
    match panels.read_both(page.alloc(), tree) {
        Ok(reread) => {
            let unread = panels.take(PAGE, reread);
            tell_unread(page, &unread);
            tell_panels(page, panels);
        }
        Err(_error) => page.fail(),
    }
}

/// Removes a file or an empty folder.
fn remove<T: Tree>(page: &mut Page, tree: &mut T, path: &str) {
    let Ok(path) = Path::parse(page.alloc(), path) else {
        return page.fail();
    };
    if tree.remove_file(page.alloc(), &path).is_ok() {
        return;
    }
    page.need(tree.remove_folder(page.alloc(), &path).is_ok());
}

fn command_of(page: &mut Page, word: &str, field: &str) -> Option<PanelCommand> {
    match word {
        "move" => Some(PanelCommand::Move(base_of(field))),
        "tab" => Some(PanelCommand::SwitchPanel),
        "swap" => Some(PanelCommand::SwapPanels),
        "enter" => Some(PanelCommand::Enter),
        "again" => Some(PanelCommand::ReadAgain),
        "back" => Some(PanelCommand::Back),
        "forward" => Some(PanelCommand::Forward),
        "toggle" => Some(PanelCommand::Toggle),
        "invert" => Some(PanelCommand::Invert),
        "compare" => Some(PanelCommand::Compare),
        "hide" => Some(PanelCommand::ToggleHidden),
        "brief" => Some(PanelCommand::ShowBrief),
        _ => typed_command_of(page, word, field),
    }
}

/// A command with a text that is typed, or chosen in a box.
fn typed_command_of(page: &mut Page, word: &str, field: &str) -> Option<PanelCommand> {
    match word {
        "select" => Some(PanelCommand::Select(pattern_of(page, field)?)),
        "unselect" => Some(PanelCommand::Unselect(pattern_of(page, field)?)),
        "goto" => match Path::parse(page.alloc(), field) {
            Ok(path) => Some(PanelCommand::GoTo(path)),
            Err(_error) => None,
        },
        "format" => match PanelFormat::user(page.alloc(), field) {
            Ok(format) => Some(PanelCommand::ShowColumns(format)),
            Err(_error) => None,
        },
        _ => Some(PanelCommand::Arrange(arrangement_of(page, word, field)?)),
    }
}

fn arrangement_of(page: &mut Page, word: &str, field: &str) -> Option<Arrangement> {
    match word {
        "sort" => Some(Arrangement::Sorted(order_of(field)?)),
        "reversed" => Some(Arrangement::Reversed(field == "on")),
        "hidden" => Some(Arrangement::Hidden(field == "on")),
        "all" => Some(Arrangement::Filtered(None)),
        "filter" => Some(Arrangement::Filtered(Some(pattern_of(page, field)?))),
        _ => None,
    }
}

fn order_of(word: &str) -> Option<Order> {
    match word {
        "name" => Some(Order::Name),
        "extension" => Some(Order::Extension),
        "size" => Some(Order::Size),
        "time" => Some(Order::Time),
        "unsorted" => Some(Order::Unsorted),
        _ => None,
    }
}

fn pattern_of(page: &mut Page, text: &str) -> Option<Pattern> {
    Pattern::shell(page.alloc(), text).ok()
}

fn base_of(word: &str) -> Base {
    match word {
        "up" => Base::Up,
        "down" => Base::Down,
        "pgup" => Base::PgUp,
        "pgdn" => Base::PgDn,
        "home" => Base::Home,
        "end" => Base::End,
        _ => Base::Unknown,
    }
}
