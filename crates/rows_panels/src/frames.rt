//! What the frame shows of the panels.
use key_screen::Attr;
use panel_pair::{FrameSize, Panels};
use rows_page::{Page, number, two_fields};
use screen_frame::{ListingLine, Pane, Panes, Shape};
use std::convert::AsStr;

/// The panes of a screen: its lines and columns and the second stand in the fields.
pub fn tell_panes(page: &mut Page, panels: &Panels, fields: &str) {
    match panels.panes(page.alloc(), size_of(fields)) {
        Ok(Panes::Both(left, right)) => {
            tell_pane(page, &left);
            tell_pane(page, &right);
        }
        Ok(Panes::Whole(pane)) => {
            page.put("whole ");
            tell_pane(page, &pane);
        }
        Err(_error) => page.fail(),
    }
}

fn size_of(fields: &str) -> FrameSize {
    let (lines, rest) = two_fields(fields, ' ');
    let (columns, now) = two_fields(rest, ' ');
    FrameSize {
        lines: lines.parse().unwrap_or(0),
        columns: columns.parse().unwrap_or(0),
        now: number(now) as u64,
    }
}

fn tell_pane(page: &mut Page, pane: &Pane) {
    page.put("\n");
    page.put(if pane.is_current { "*" } else { "" });
    page.put(pane.title.as_str());
    page.put(match pane.shape {
        Shape::Full => "",
        Shape::Brief => " in two columns",
    });
    page.put("\n  [");
    page.put(pane.heading.as_str());
    page.put("]");
    for item in pane.items.as_slice() {
        tell_item(page, item);
    }
    page.tell(format_args!("\n  {}, {} unnamed", pane.name.as_str(), pane.unnamed));
}

fn tell_item(page: &mut Page, item: &ListingLine) {
    page.put(match item.look {
        Attr::Plain => "\n  [",
        Attr::Bold => "\n +[",
        Attr::Reverse => "\n >[",
    });
    page.put(item.text.as_str());
    page.put("]");
}
