//! What the program finds around it: its words, the folder that it was started in, the environment.
use mc_main::Env;
use mc_text::{NoMemory, Text};
use std::alloc::Global;
use std::env::VarError;
use std::io;

/// Why there are no words.
#[derive(Clone, Copy, PartialEq, Eq)]
pub enum NoWords {
    /// One of them isn't UTF-8.
    NotText,
    Memory,
}

/// The words after the program's name.
pub fn words_of(rt: &HostRuntime) -> Result<Vec<Text>, NoWords> {
    let all = match std::env::args(rt) {
        Ok(all) => all,
        Err(error) => {
            return Err(match error.kind() {
                io::ErrorKind::OutOfMemory => NoWords::Memory,
                _ => NoWords::NotText,
            });
        }
    };
    let mut words = Vec::new(rt.alloc());
    let mut is_program = true;
    for word in all {
        if is_program {
            is_program = false;
        } else if words.push(Text(word)).is_err() {
            return Err(NoWords::Memory);
        }
    }
    Ok(words)
}

/// The folder and the environment.
pub fn surroundings(rt: &HostRuntime) -> Result<Env, NoMemory> {
    Ok(Env {
        folder: folder(rt)?,
        lines: variable(rt, "LINES")?,
        columns: variable(rt, "COLUMNS")?,
        home: variable(rt, "HOME")?,
        workers: variable(rt, "MC_WORKERS")?,
    })
}

/// The folder that the program was started in; an empty text where the system doesn't
/// say it, or says no text.
fn folder(rt: &HostRuntime) -> Result<Text, NoMemory> {
    match std::env::current_dir(rt) {
        Ok(folder) => Text::from_str(rt.alloc(), folder.to_str().unwrap_or("")),
        Err(error) => match error.kind() {
            io::ErrorKind::OutOfMemory => Err(NoMemory),
            _ => Ok(Text(String::new(rt.alloc()))),
        },
    }
}

/// A variable of the environment. What is no text counts as missing.
fn variable(rt: &HostRuntime, name: &str) -> Result<Option<Text>, NoMemory> {
    match std::env::var(rt, name) {
        Ok(value) => Ok(Some(Text(value))),
        Err(VarError::OutOfMemory) => Err(NoMemory),
        Err(_) => Ok(None),
    }
}

/// Where LINES or COLUMNS is missing, what the terminal says of its size, as `stty size` prints it, fills it.
/// Where that says nothing it stays missing.
pub fn fill_size(alloc: Global, env: &mut Env, said: &str) -> Result<(), NoMemory> {
    let Some((lines, columns)) = said.trim().split_once(' ') else {
        return Ok(());
    };
    if env.lines.is_none() {
        env.lines = Some(Text::from_str(alloc, lines)?);
    }
    if env.columns.is_none() {
        env.columns = Some(Text::from_str(alloc, columns)?);
    }
    Ok(())
}
