//! The two panels between which the rows of menus stand: `/p/q`, whose cursor is on the file `a b`, and `/o`,
//! whose cursor is on the folder `box`.
use mc_text::{Kind, Name, Names, Path, Text};
use percent_macros::{Context, Side};
use std::alloc::Global;
use user_menu::Fact;

/// What the menu's conditions and macros are told of the panels.
#[derive(Drop)]
pub struct Panels {
    pub here: Fact,
    pub other: Fact,
    pub context: Context,
}

/// The panels, where these names are tagged here, a slash between two.
pub fn panels_of(alloc: Global, tags: &str) -> Option<Panels> {
    Some(Panels {
        here: fact_of(alloc, "/p/q", "a b", Kind::File, !tags.is_empty())?,
        other: fact_of(alloc, "/o", "box", Kind::Folder, false)?,
        context: Context {
            here: side_of(alloc, "/p/q", "a b", tags)?,
            other: side_of(alloc, "/o", "box", "t")?,
        },
    })
}

fn fact_of(alloc: Global, folder: &str, name: &str, kind: Kind, tagged: bool) -> Option<Fact> {
    Some(Fact {
        name: Text::from_str(alloc, name).ok()?,
        folder: Path::parse(alloc, folder).ok()?,
        kind,
        mode: 0o644,
        tagged,
    })
}

fn side_of(alloc: Global, folder: &str, current: &str, tags: &str) -> Option<Side> {
    Some(Side {
        folder: Path::parse(alloc, folder).ok()?,
        current: Text::from_str(alloc, current).ok()?,
        tagged: names_of(alloc, tags)?,
    })
}

fn names_of(alloc: Global, tags: &str) -> Option<Names> {
    let mut names = Names::new(alloc);
    for tag in tags.split('/').filter(|tag| !tag.is_empty()) {
        names.push(Name::new(alloc, tag).ok()?).ok()?;
    }
    Some(names)
}
