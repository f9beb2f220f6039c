//! What a folder holds, as a listing has it.
ghost use Rattle.std.specs.Prelude.{◌≡◌};
ghost use Rattle.panel_listing.specs.Items.{leads_to_folder};

use mc_text::{Kind, Name};

/// Where a link leads: to a folder, to another thing, or nowhere. One that can't be followed leads nowhere.
#[derive(Clone, Copy, Debug, PartialEq, Eq)]
pub enum LinkKind {
    NotLink,
    ToFolder,
    ToThing,
    Stale,
}

/// A child of a folder. One that can't be looked at is another thing, with zeros.
#[derive(Debug, Drop)]
pub struct Item {
    pub name: Name,
    pub kind: Kind,
    pub link: LinkKind,
    pub size: u64,
    pub mode: u16,
    pub mtime: i64,
}

impl Item {
    /// Whether it stands among the folders: it is one, or a link that leads to one.
    pub fn leads_to_folder(&self) -> bool
        ensures { result ≡ leads_to_folder self.now }
    {
        match (self.kind, self.link) {
            (Kind::Folder, _) | (_, LinkKind::ToFolder) => true,
            _ => false,
        }
    }
}
