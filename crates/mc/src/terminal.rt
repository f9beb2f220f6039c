//! The terminal that the program runs in, asked through `stty`, whose failures are ignored.
use crate::surroundings::fill_size;
use mc_main::{Env, Printed};
use std::io;
use std::io::ErrorKind;
use std::process::{Command, Stdio};

/// What a run did to the terminal, and so what has to be done at its end.
#[derive(Drop)]
pub enum TerminalChange {
    /// Nothing: the words ask for no session.
    Untouched,
    /// It was made raw, and this is what it was like before, as `stty` says it.
    RawAfter(String),
    /// It was made raw, and what it was like could not be asked.
    Raw,
}

/// Prints the usage line.
pub fn put_usage(rt: &HostRuntime) -> io::Result<()> {
    let usage = Printed::Usage.text();
    print!(rt; "{usage}")
}

/// Lets each byte of the keyboard come at once, and not be shown. Before that the terminal says what it is
/// like, and by the command that makes it raw how large it is, where the environment doesn't say that.
pub fn make_raw(rt: &HostRuntime, env: &mut Env) -> TerminalChange {
    let modes = stty_output(rt, &["-g"]);
    let size_wanted = env.lines.is_none() || env.columns.is_none();
    if size_wanted && let Ok(size) = stty_output(rt, &["size", "raw", "-echo"]) {
        let _filled = fill_size(rt.alloc(), env, size.as_str());
    } else {
        // Also where a terminal that has no size was left as it is for want of one.
        let _raw = stty(rt, &["raw", "-echo"]);
    }
    match modes {
        Ok(modes) => TerminalChange::RawAfter(modes),
        Err(_) => TerminalChange::Raw,
    }
}

/// What `stty` says to these words, without the end of its line.
fn stty_output(rt: &HostRuntime, words: &[&str]) -> io::Result<String> {
    let said = Command::new(rt.alloc(), "stty")?
        .args(words)?
        .stdin(Stdio::inherit())
        .stderr(Stdio::null())
        .output(rt)?;
    let text = std::str::from_utf8(said.stdout.as_slice())
        .unwrap_or("")
        .trim();
    if !said.status.success() || text.is_empty() {
        return Err(io::Error::from(ErrorKind::Unsupported));
    }
    Ok(String::from_str(rt.alloc(), text)?)
}

/// Makes the terminal what it was before; where that isn't known, what a shell wants.
pub fn put_back(rt: &HostRuntime, terminal: &TerminalChange) {
    let _done = match terminal {
        TerminalChange::Untouched => Ok(()),
        TerminalChange::RawAfter(modes) => stty(rt, &[modes.as_str()]),
        TerminalChange::Raw => stty(rt, &["sane"]),
    };
}

/// Takes the last frame off the screen, shows the cursor, and goes back to the terminal's first screen. A
/// terminal that has no other one is left blank.
pub fn leave_screen(rt: &HostRuntime) {
    let _done = print!(rt; "\x1b[0m\x1b[2J\x1b[1;1H\x1b[?25h\x1b[?1049l");
}

/// After a printed line: a raw terminal doesn't go back to the first column by itself. What isn't
/// a terminal gets nothing.
pub fn begin_line(rt: &HostRuntime) {
    let _done = return_on_terminal(rt);
}

fn return_on_terminal(rt: &HostRuntime) -> io::Result<()> {
    let _status = Command::new(rt.alloc(), "sh")?
        .arg("-c")?
        .arg("printf '\\r' >/dev/tty")?
        .stdout(Stdio::null())
        .stderr(Stdio::null())
        .status(rt)?;
    Ok(())
}

fn stty(rt: &HostRuntime, words: &[&str]) -> io::Result<()> {
    let mut command = Command::new(rt.alloc(), "stty")?;
    for word in words {
        command.arg(word)?;
    }
    let _status = command
        .stdout(Stdio::null())
        .stderr(Stdio::null())
        .status(rt)?;
    Ok(())
}
