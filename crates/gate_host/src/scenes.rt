//! Plays the rows of a scene in a new folder.
use crate::calls::{tell_answer, tell_done};
use mc_text::Path;
use rows_page::{Page, two_fields};
use tree_trait::{Spawner, Tree};

/// The title of a scene, and each of its rows with its answer. They are played in the folder `rows`
/// of the one that is here.
pub fn tell_scene<T: Tree, P: Spawner>(
    page: &mut Page,
    tree: &mut T,
    shell: &mut P,
    here: &str,
    scene: &str,
) {
    let mut folder = Page::new(page.alloc());
    folder.put(here);
    folder.put("/rows");
    run(page, shell, here, "rm -rf rows; mkdir rows");
    for row in scene.lines() {
        tell_row(page, tree, shell, folder.text(), row);
    }
    page.put("\n");
    run(page, shell, here, "rm -r rows");
}

/// Plays a row, and writes it with its answer.
fn tell_row<T: Tree, P: Spawner>(
    page: &mut Page,
    tree: &mut T,
    shell: &mut P,
    folder: &str,
    row: &str,
) {
    let (first, words) = two_fields(row, ' ');
    match first {
        "#" => page.put(words),
        "sh" => run(page, shell, folder, words),
        call => {
            page.tell(format_args!("\n  {row} = "));
            let (place, word) = two_fields(words, ' ');
            tell_call(page, tree, folder, call, place, word);
        }
    }
}

/// The answer of a call, its path and a word more.
fn tell_call<T: Tree>(
    page: &mut Page,
    tree: &mut T,
    folder: &str,
    call: &str,
    place: &str,
    word: &str,
) {
    let Some(path) = path_of(page, folder, place) else {
        return;
    };
    match call {
        "rename" => tell_renamed(page, tree, &path, folder, word),
        _ => tell_answer(page, tree, call, &path, word),
    }
}

fn tell_renamed<T: Tree>(page: &mut Page, tree: &mut T, path: &Path, folder: &str, word: &str) {
    if let Some(target) = path_of(page, folder, word) {
        tell_done(page, tree.rename(page.alloc(), path, &target));
    }
}

/// The path of a place, which is below the folder or begins with a slash.
fn path_of(page: &mut Page, folder: &str, place: &str) -> Option<Path> {
    let mut text = Page::new(page.alloc());
    if !place.starts_with('/') {
        text.put(folder);
        text.put("/");
    }
    text.put(place);
    let path = Path::parse(page.alloc(), text.text()).ok();
    page.need(path.is_some());
    path
}

/// Runs a command that has to end well.
fn run<P: Spawner>(page: &mut Page, shell: &mut P, folder: &str, command: &str) {
    match Path::parse(page.alloc(), folder) {
        Ok(folder) => run_in(page, shell, &folder, command),
        Err(_error) => page.fail(),
    }
}

fn run_in<P: Spawner>(page: &mut Page, shell: &mut P, folder: &Path, command: &str) {
    match shell.run(page.alloc(), folder, command) {
        Ok(outcome) => page.need(outcome.status == 0),
        Err(_error) => page.fail(),
    }
}
