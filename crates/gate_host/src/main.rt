//! Each device on the machine itself: rows of calls of the tree in folders of their own, and
//! of the other devices. Of each row its answer is printed. The expected lines stand in
//! `stdout`, written from the rules.
#![tactic(auto)]

mod calls;
mod changes;
mod devices;
mod rows;
mod scenes;

use crate::devices::{tell_clock, tell_command, tell_fault, tell_keyboard, tell_screen, tell_size};
use crate::rows::{commands, scenes, sizes};
use crate::scenes::tell_scene;
use host_devices::{HostClock, ShSpawner, StdinSource, StdoutSink};
use host_tree::HostTree;
use rows_page::{Fault, Page, print_page};
use std::convert::AsStr;
use tree_trait::Sink;

fn main(rt: HostRuntime) -> Result<(), Fault> {
    let here = std::env::current_dir(&rt)?;
    let mut page = Page::new(rt.alloc());
    tell_scenes(&mut page, rt, here.as_path().as_os_str());
    tell_devices(&mut page, rt);
    print_page(&rt, &page)?;
    put_line(rt)
}

fn tell_scenes(page: &mut Page, rt: HostRuntime, here: &str) {
    let mut shell = ShSpawner::new(rt);
    for scene in scenes().split("\n\n") {
        tell_scene(page, &mut HostTree::new(rt), &mut shell, here, scene);
    }
    for row in commands().lines() {
        tell_command(page, &mut shell, row);
    }
}

fn tell_devices(page: &mut Page, rt: HostRuntime) {
    tell_fault(page, &mut HostTree::new(rt));
    tell_keyboard(page, &mut StdinSource::new(rt));
    tell_screen(page, &mut StdoutSink::new(rt));
    for said in sizes() {
        tell_size(page, said);
    }
    tell_clock(page, &HostClock::new(rt));
}

/// The line that the screen puts itself.
fn put_line(rt: HostRuntime) -> Result<(), Fault> {
    match StdoutSink::new(rt).put(rt.alloc(), b"the screen is given this line\n") {
        Ok(()) => Ok(()),
        Err(_error) => Err(Fault::Stream),
    }
}
