//! Walks through every moment of twenty sessions, of which one deletes a file, one a folder, one copies a
//! file, one copies it over another, one copies a link over a file, one deletes two files of which the
//! first is left unsynced, one copies a file whose target is left so, and deletes the source, one makes a
//! folder, one makes two of which the first is left unsynced, one makes a link, one sets a file's mode, one
//! those of two files of which the first is left unsynced, one copies a folder with all that lies in it,
//! one moves a file, one moves it over another, one moves a file whose folders are left unsynced, and
//! deletes it where it went, one moves a folder with all that lies in it, one moves it likewise and deletes
//! a file in it, and two move it onto a folder, where what stands is replaced or stays. It walks through
//! the crash images of each: what is left then?
#![tactic(auto)]

mod images;
mod jobs;
mod judging;
mod playing;
mod scenes;
mod sessions;
mod stepping;
mod things;

use crate::playing::tell_scene;
use crate::scenes::Scene;
use rows_page::Page;
pub use things::FileThings;

/// The lines of all sessions.
pub fn tell_walks(page: &mut Page) {
    tell_scene(page, Scene::Deletion);
    tell_scene(page, Scene::Folder);
    tell_scene(page, Scene::Copy);
    tell_scene(page, Scene::Overwriting);
    tell_scene(page, Scene::LinkOver);
    tell_scene(page, Scene::LeftFolder);
    tell_scene(page, Scene::LeftTarget);
    tell_scene(page, Scene::NewFolder);
    tell_scene(page, Scene::LeftNewFolder);
    tell_scene(page, Scene::NewLink);
    tell_scene(page, Scene::Mode);
    tell_scene(page, Scene::LeftMode);
    tell_scene(page, Scene::Tree);
    tell_scene(page, Scene::Move);
    tell_scene(page, Scene::MoveOver);
    tell_scene(page, Scene::LeftMove);
    tell_scene(page, Scene::FolderMove);
    tell_scene(page, Scene::LeftFolderMove);
    tell_scene(page, Scene::Merge);
    tell_scene(page, Scene::KeptMerge);
}
