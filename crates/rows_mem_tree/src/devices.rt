//! The other devices in memory at worked values.
use anyhow::Result;
use mc_text::{Bytes, Path};
use mem_devices::{FakeSpawner, FixedClock, MemSink, MemSource, Mute, Outcomes};
use std::alloc::Global;
use std::convert::AsStr;
use tree_trait::{Clock, RunOutcome, Sink, Source, Spawner};

/// A line for each device.
pub fn all_answers(alloc: Global) -> Result<String> {
    let keys = taken_keys(alloc)?;
    let put = put_bytes(alloc)?;
    let runs = run_commands(alloc)?;
    let now = FixedClock::new(12).now();
    Ok(format!(in alloc; "keys: {keys}\nscreen: {put}\nshell: {runs}\nclock: {now}\n")?)
}

/// A source of the bytes `keys`, whose second call fails, is asked for three bytes four times.
fn taken_keys(alloc: Global) -> Result<String> {
    let mut source = MemSource::new(Bytes::from_slice(alloc, b"keys")?, Some(2));
    let mut line = String::new(alloc);
    for _ in 0..4 {
        let took = take_three(alloc, &mut source)?;
        line.push_str(took.as_str())?;
    }
    let faults = Mute::new(source).faults();
    Ok(format!(in alloc; "{line}{faults} fault")?)
}

fn take_three<S: Source>(alloc: Global, source: &mut S) -> Result<String> {
    let mut room = *b"...";
    match source.take(&mut room) {
        Ok(count) => {
            let shown = String::from_utf8_lossy(alloc, &room)?;
            Ok(format!(in alloc; "{count} {shown}, ")?)
        }
        Err(_error) => Ok(String::from_str(alloc, "refused, ")?),
    }
}

/// A screen whose second call fails is given three texts.
fn put_bytes(alloc: Global) -> Result<String> {
    let mut sink = MemSink::new(alloc, Some(2));
    let first = sink.put(alloc, b"one").is_ok();
    let second = sink.put(alloc, b"two").is_ok();
    let third = sink.put(alloc, b"three").is_ok();
    let shown = String::from_utf8_lossy(alloc, sink.bytes())?;
    let faults = Mute::new(sink).faults();
    Ok(format!(in alloc; "{first} {second} {third} {shown}, {faults} fault")?)
}

/// A shell that has one outcome, and then a refusal, is given three commands.
fn run_commands(alloc: Global) -> Result<String> {
    let mut shell = FakeSpawner::new(outcomes(alloc)?);
    let folder = Path::parse(alloc, "/dir")?;
    let mut line = String::new(alloc);
    for _ in 0..3 {
        let ran = run_one(alloc, &mut shell, &folder)?;
        line.push_str(ran.as_str())?;
    }
    let count = shell.runs().0.len();
    let faults = Mute::new(shell).faults();
    Ok(format!(in alloc; "{line}{count} runs, {faults} faults")?)
}

fn outcomes(alloc: Global) -> Result<Outcomes> {
    let mut outcomes = Vec::new(alloc);
    outcomes.push(Some(RunOutcome {
        status: -1,
        output: Bytes::from_slice(alloc, b"out")?,
    }))?;
    outcomes.push(None)?;
    Ok(Outcomes(outcomes))
}

fn run_one<S: Spawner>(alloc: Global, shell: &mut S, folder: &Path) -> Result<String> {
    match shell.run(alloc, folder, "ls") {
        Ok(outcome) => {
            let output = String::from_utf8_lossy(alloc, outcome.output.0.as_slice())?;
            Ok(format!(in alloc; "{} {output}, ", outcome.status)?)
        }
        Err(_error) => Ok(String::from_str(alloc, "refused, ")?),
    }
}
