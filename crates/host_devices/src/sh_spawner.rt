//! The shell that runs commands.
ghost use Rattle.std.specs.Prelude.{◌≡◌, ◌≤◌, length, None, IfOk, vec_len};
ghost use Rattle.tree_trait.specs.Answers.{HasCause};

use crate::cause::cause_of;
use crate::device::Device;
use crate::read::{TURNS, read_once};
use mc_text::{Bytes, Path};
use std::alloc::Global;
use std::io;
use std::io::{ErrorKind, PipeReader, Read};
use std::process::{Child, Command, OpenProcess, Processes, Stdio};
use std::rt::Files;
use tree_trait::{OUTPUT_BYTES, RunOutcome, SpawnError, Spawner, TreeError};

/// The system's shell, as a device.
#[derive(Drop)]
pub struct Sh;

/// The system's shell. It tells nothing of the commands that it ran.
pub type ShSpawner<R> = Device<Sh, R>;

impl<R: Processes + Files> Spawner for Device<Sh, R> {
    ghost runs = { λ _. None };

    ghost fault_count = { λ count. count };

    fn run(
        &mut self,
        alloc: Global,
        folder: &Path,
        command: &str,
    ) -> Result<RunOutcome, SpawnError> {
        let answer = run_shell(&self.rt, alloc, folder, command);
        if matches!(answer, Err(SpawnError::Fault)) {
            self.faults.raise();
        }
        answer
    }

    fn faults(&self) -> u64 {
        self.faults.count()
    }
}

/// Runs a command to its end. Room for the output is taken first: once the command
/// runs, nothing wants memory.
fn run_shell<R: Processes + Files>(
    rt: &R,
    alloc: Global,
    folder: &Path,
    command: &str,
) -> Result<RunOutcome, SpawnError>
    ensures { IfOk result (λ outcome. length outcome.output ≤ OUTPUT_BYTES) }
{
    let Ok(room) = Vec::with_capacity(alloc, OUTPUT_BYTES) else {
        return Err(SpawnError::Memory);
    };
    let (child, output) = match start(rt, alloc, folder, command) {
        Ok(started) => started,
        Err(error) if cause_of(&error) == TreeError::Memory => return Err(SpawnError::Memory),
        Err(_) => return Err(SpawnError::Fault),
    };
    match finish(child, output, room) {
        Ok(outcome) => Ok(outcome),
        Err(_) => Err(SpawnError::Fault),
    }
}

/// Starts the shell with an empty input, and with one pipe for both of its outputs, whose end it
/// hands back. Its own ends of the pipe are gone with the `Command`: while one were open, the
/// output would have no end.
fn start<R: Processes + Files>(
    rt: &R,
    alloc: Global,
    folder: &Path,
    command: &str,
) -> io::Result<(Child<R::Started>, PipeReader)> {
    let Ok(folder) = folder.text(alloc) else {
        return Err(io::Error::from(ErrorKind::OutOfMemory));
    };
    let (output, writer) = io::pipe(rt)?;
    let both = writer.try_clone()?;
    let child = Command::new(alloc, "sh")?
        .arg("-c")?
        .arg(command)?
        .current_dir(folder.0)?
        .stdin(Stdio::null())
        .stdout(writer)
        .stderr(both)
        .spawn(rt)?;
    Ok((child, output))
}

/// Reads the output of a command to its end, and then waits for the command.
fn finish<P: OpenProcess + Drop>(
    mut child: Child<P>,
    mut output: PipeReader,
    room: Vec<u8>,
) -> io::Result<RunOutcome>
    requires { vec_len room ≡ 0 }
    ensures { IfOk result (λ outcome. length outcome.output ≤ OUTPUT_BYTES) }
{
    let kept = first_bytes(&mut output, room);
    drop(output);
    let status = child.wait()?.code().unwrap_or(-1);
    Ok(RunOutcome {
        status,
        output: Bytes(kept?),
    })
}

/// The first bytes of an output, as many as are kept. The others are read too, so that the command can go on.
fn first_bytes<I: Read>(output: &mut I, room: Vec<u8>) -> io::Result<Vec<u8>>
    requires { vec_len room ≡ 0 }
    ensures { IfOk result (λ kept. vec_len kept ≤ OUTPUT_BYTES) }
{
    let mut kept = room;
    let mut bytes = [0u8; 65536];
    for _ in 0..TURNS {
        let count = read_once(output, &mut bytes)?;
        if count == 0 {
            return Ok(kept);
        }
        let room = OUTPUT_BYTES.saturating_sub(kept.len());
        kept.extend_from_slice(&bytes[..count.min(room)])?;
    }
    Err(io::Error::from(ErrorKind::TimedOut))
}
