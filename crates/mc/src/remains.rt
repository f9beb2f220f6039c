//! What is told on the terminal behind a session: the parts that jobs left, and the jobs for which memory
//! ran out.
use job_reports::{Did, Ending, Job, Pair};
use mc_text::{NoMemory, Path, PathError};
use session_entries::Event;
use session_log::History;
use std::alloc::Global;
use std::convert::AsStr;
use std::io;

/// What a session leaves to be told.
#[derive(Drop)]
struct Remains {
    /// The parts that are left.
    parts: Vec<Path>,
    /// The source at which each job was that ended since memory ran out.
    short: Vec<Path>,
    /// The source that was begun last.
    source: Option<Path>,
}

/// Tells what a session leaves, a line each. Without memory to find it out, as much as was found.
pub fn tell_remains(rt: &HostRuntime, history: &History) {
    let mut remains = Remains {
        parts: Vec::new(rt.alloc()),
        short: Vec::new(rt.alloc()),
        source: None,
    };
    let _gathered = remains.gather(rt.alloc(), history);
    let _told = remains.tell(rt);
}

impl Remains {
    /// Goes through a history, the oldest entry first.
    fn gather(&mut self, alloc: Global, history: &History) -> Result<(), NoMemory> {
        let mut walk = history.entries.0.oldest_first(alloc);
        for _ in 0..history.entries.0.len() {
            if let Some(met) = walk.next(alloc)? {
                self.take_in(alloc, &met.entry().what)?;
            }
        }
        Ok(())
    }

    fn take_in(&mut self, alloc: Global, what: &Event) -> Result<(), NoMemory> {
        match what {
            Event::Began { plan, .. } | Event::Next { plan, .. } => {
                self.source = copied(alloc, source_of(plan))?;
                Ok(())
            }
            Event::Step { did, .. } => self.take_step(alloc, did),
            _ => Ok(()),
        }
    }

    fn take_step(&mut self, alloc: Global, did: &Did) -> Result<(), NoMemory> {
        match did {
            Did::Ended { ending, part } => self.take_end(alloc, *ending, part),
            Did::Removed(path) => {
                self.parts.retain(|part| !part.same(path));
                Ok(())
            }
            Did::Moved(pair) => self.take_move(alloc, pair),
            _ => Ok(()),
        }
    }

    /// A job ended.
    fn take_end(
        &mut self,
        alloc: Global,
        ending: Ending,
        part: &Option<Path>,
    ) -> Result<(), NoMemory> {
        if let Some(part) = part {
            self.parts.push(part.copy(alloc)?)?;
        }
        if let (Ending::NoMemory, Some(source)) = (ending, &self.source) {
            self.short.push(source.copy(alloc)?)?;
        }
        Ok(())
    }

    /// A thing was moved, with the parts that lie in it.
    fn take_move(&mut self, alloc: Global, pair: &Pair) -> Result<(), NoMemory> {
        for part in &mut self.parts {
            if pair.source.is_prefix_of(part) {
                *part = moved(alloc, pair, part)?;
            }
        }
        Ok(())
    }

    fn tell(&self, rt: &HostRuntime) -> io::Result<()> {
        for part in &self.parts {
            tell_path(rt, "part left", part)?;
        }
        for source in &self.short {
            tell_path(rt, "out of memory", source)?;
        }
        Ok(())
    }
}

/// Tells what is said of a path, in a line.
fn tell_path(rt: &HostRuntime, what: &str, path: &Path) -> io::Result<()> {
    match path.text(rt.alloc()) {
        Ok(text) => {
            let path = text.as_str();
            println!(rt; "mc: {what}: {path}")
        }
        Err(NoMemory) => Ok(()),
    }
}

/// The path of a part that was moved with the thing in which it lies.
fn moved(alloc: Global, pair: &Pair, part: &Path) -> Result<Path, NoMemory> {
    let mut path = pair.target.copy(alloc)?;
    for name in part.names().iter().skip(pair.source.names().len()) {
        path = match path.join(alloc, name) {
            Ok(path) => path,
            Err(PathError::Memory) => return Err(NoMemory),
            Err(_) => return part.copy(alloc),
        };
    }
    Ok(path)
}

/// The first source of a plan.
fn source_of(plan: &Job) -> Option<&Path> {
    match plan {
        Job::Copy(pairs) | Job::Move(pairs) => match pairs.as_slice() {
            [] => None,
            [pair, ..] => Some(&pair.source),
        },
        Job::Delete(paths) | Job::SetMode(paths, _) => paths.as_slice().first(),
        Job::MakeFolder(path) | Job::MakeLink(path, _) | Job::RemoveEmptied(path) => Some(path),
    }
}

/// A path once more, if there is one.
fn copied(alloc: Global, path: Option<&Path>) -> Result<Option<Path>, NoMemory> {
    match path {
        None => Ok(None),
        Some(path) => Ok(Some(path.copy(alloc)?)),
    }
}
