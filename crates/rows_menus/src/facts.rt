//! What is known of a panel, as a row gives it: kind, mode, whether names are tagged, folder and
//! name of the current thing.
use mc_text::{Kind, Path, Text};
use rows_page::two_fields;
use std::alloc::Global;
use user_menu::Fact;

/// The facts of a panel. The name stands last, since it may hold blanks.
pub fn fact_of(alloc: Global, field: &str) -> Option<Fact> {
    let (kind, rest) = two_fields(field, ' ');
    let (mode, rest) = two_fields(rest, ' ');
    let (tags, rest) = two_fields(rest, ' ');
    let (folder, name) = two_fields(rest, ' ');
    let folder = Path::parse(alloc, folder).ok()?;
    Some(Fact {
        name: Text::from_str(alloc, name).ok()?,
        folder,
        kind: kind_of(kind),
        mode: u16::from_str_radix(mode, 8).unwrap_or(0),
        tagged: tags == "tagged",
    })
}

fn kind_of(word: &str) -> Kind {
    match word {
        "file" => Kind::File,
        "folder" => Kind::Folder,
        "link" => Kind::Link,
        _ => Kind::Other,
    }
}
