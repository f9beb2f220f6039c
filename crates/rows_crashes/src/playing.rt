//! The sessions and jobs whose moments are walked.
use crate::images::walk;
use crate::jobs::{copy_tree, make_link, set_modes};
use crate::scenes::Scene;
use crate::sessions::tell_session;
use crate::things::FileThings;
use mem_devices::Mute;
use mem_tree::MemTree;
use rows_page::Page;
use rows_trees::{fresh, put_things};

/// The lines of a session: its title, and what is left at each moment.
pub fn tell_scene(page: &mut Page, scene: Scene) {
    match fresh(page.alloc(), 0) {
        Ok(mut tree) => {
            put_things::<FileThings>(page, &mut tree, scene.things());
            page.need(tree.fail_calls(page.alloc(), scene.fails()).is_ok());
            play(page, tree, scene);
        }
        Err(_error) => page.fail(),
    }
}

fn play(page: &mut Page, tree: MemTree, scene: Scene) {
    match scene.keys() {
        Some(keys) => tell_session(page, tree, scene, keys),
        None => tell_jobs(page, tree, scene),
    }
}

/// The sessions without keys: jobs over a tree that tells nothing.
fn tell_jobs(page: &mut Page, tree: MemTree, scene: Scene) {
    let mut tree = Mute::new(tree);
    match scene {
        Scene::NewLink => make_link(page, &mut tree, "/a/l"),
        Scene::Mode => set_modes(page, &mut tree, "/a/x"),
        Scene::LeftMode => set_modes(page, &mut tree, "/a/x /a/y"),
        Scene::Tree => copy_tree(page, &mut tree, "/s/d", "/t/d"),
        _ => page.fail(),
    }
    walk(page, tree.inner(), scene);
}
