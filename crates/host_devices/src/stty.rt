//! What `stty` says and sets of the terminal that is the standard input. Where that is no terminal it
//! refuses.
use std::io;
use std::io::ErrorKind;
use std::process::{Command, Processes, Stdio};

/// Lets a read answer at once, with the bytes that are there.
pub fn read_at_once<R: Processes + AllocGlobal>(rt: &R) -> io::Result<()> {
    set(rt, &["-icanon", "min", "0", "time", "0"])
}

/// Lets a read wait for a byte.
pub fn read_with_waiting<R: Processes + AllocGlobal>(rt: &R) -> io::Result<()> {
    set(rt, &["min", "1", "time", "0"])
}

fn set<R: Processes + AllocGlobal>(rt: &R, words: &[&str]) -> io::Result<()> {
    let status = Command::new(rt.alloc(), "stty")?
        .args(words)?
        .stdin(Stdio::inherit())
        .stdout(Stdio::null())
        .stderr(Stdio::null())
        .status(rt)?;
    if status.success() {
        Ok(())
    } else {
        Err(io::Error::from(ErrorKind::Unsupported))
    }
}

/// How many lines and columns the terminal has.
pub fn terminal_size<R: Processes + AllocGlobal>(rt: &R) -> Option<(u16, u16)> {
    let Ok(said) = size_output(rt) else {
        return None;
    };
    size_in(std::str::from_utf8(said.as_slice()).unwrap_or(""))
}

fn size_output<R: Processes + AllocGlobal>(rt: &R) -> io::Result<Vec<u8>> {
    let said = Command::new(rt.alloc(), "stty")?
        .arg("size")?
        .stdin(Stdio::inherit())
        .stderr(Stdio::null())
        .output(rt)?;
    Ok(said.stdout)
}

/// The lines and columns in what `stty size` says; nothing where that is another text.
pub fn size_in(said: &str) -> Option<(u16, u16)> {
    let (lines, columns) = said.trim().split_once(' ')?;
    let (Ok(lines), Ok(columns)) = (lines.parse::<u16>(), columns.parse::<u16>()) else {
        return None;
    };
    Some((lines, columns))
}
