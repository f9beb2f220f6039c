//! A session by keys over devices in memory that tell nothing.
use crate::images::walk;
use crate::scenes::{Keys, Scene};
use mc_desk::{Desk, Ended, Start, StartMode};
use mc_text::{Path, PathError};
use mem_devices::{FakeSpawner, MemSink, Mute, Outcomes};
use mem_tree::MemTree;
use rows_page::Page;
use std::alloc::Global;
use std::marker::Brand;

/// A desk over devices in memory that tell nothing.
type MuteDesk = Desk<Brand, Mute<MemTree>, Mute<MemSink>, Mute<FakeSpawner>>;

/// The moments of a session over two folders by these keys.
pub fn tell_session(page: &mut Page, tree: MemTree, scene: Scene, keys: Keys) {
    match start_in(page.alloc(), keys.left, keys.right) {
        Ok(start) => tell_from(page, tree, scene, start, keys.bytes),
        Err(_error) => page.fail(),
    }
}

fn start_in(alloc: Global, left: &str, right: &str) -> Result<Start, PathError> {
    let left = Path::parse(alloc, left)?;
    let right = Path::parse(alloc, right)?;
    Ok(Start {
        mode: StartMode::Panels { left, right },
        home: None,
        lines: 24,
        columns: 80,
    })
}

fn tell_from(page: &mut Page, tree: MemTree, scene: Scene, start: Start, keys: &[u8]) {
    let alloc = page.alloc();
    let begun = MuteDesk::begin(
        alloc,
        start,
        0,
        Mute::new(tree),
        Mute::new(MemSink::new(alloc, None)),
        Mute::new(FakeSpawner::new(Outcomes(Vec::new(alloc)))),
    );
    match begun {
        Ok(mut desk) => {
            type_keys(page, &mut desk, keys);
            let Ended { tree, .. } = desk.end(alloc);
            walk(page, tree.inner(), scene);
        }
        Err(_refused) => page.fail(),
    }
}

/// Gives the keys to a desk, and lets each job that they begin do its work.
fn type_keys(page: &mut Page, desk: &mut MuteDesk, keys: &[u8]) {
    for byte in keys {
        settle(page, desk);
        type_byte(page, desk, *byte);
    }
}

/// A key after the last job has ended, while no search goes on.
fn type_byte(page: &mut Page, desk: &mut MuteDesk, byte: u8) {
    if desk.due().is_some() {
        return page.fail();
    }
    if desk.is_seeking() {
        return page.fail();
    }
    page.need(desk.byte(page.alloc(), byte, 0).is_ok());
}

/// Steps the job that is due, and looks at it.
fn settle(page: &mut Page, desk: &mut MuteDesk) {
    if let Some(job) = desk.due() {
        for _ in 0..12 {
            if desk.is_ready(job) {
                desk.step(page.alloc(), 0);
            }
        }
        page.need(desk.look(page.alloc(), 0).is_ok());
    }
}
