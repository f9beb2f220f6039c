//! A shell in memory: it runs nothing, and answers the outcomes that it was given.
ghost use Rattle.std.specs.Prelude.{◌≡◌, ◌≢◌, ◌≤◌, [], ◌∷◌, ◌++◌, drop, length, Some, Err, IfOk, OnOk, OnErr};
ghost use Rattle.tree_trait.specs.Answers.{HasCause};
ghost use Rattle.tree_trait.specs.Devices.{HasRun};
ghost use Rattle.mem_devices.specs.Devices.{Shell, first_outcome};

use mc_text::{NoMemory, Path, Text};
use std::alloc::Global;
use std::marker::Model;
use tree_trait::{Command, Commands, OUTPUT_BYTES, RunOutcome, SpawnError, Spawner};

/// The outcomes of the runs to come. None is a fault.
#[derive(Debug, Drop)]
pub struct Outcomes(pub Vec<Option<RunOutcome>>);

impl Model for Outcomes {
    ghost use Rattle.std.specs.Prelude.{List, Option};
    ghost use Rattle.tree_trait.specs.declared.devices.RunOutcome.{RunOutcome};

    ghost Value = { List (Option RunOutcome) };

    ghost view = { λ o. o.0.items };
}

/// A shell in memory.
#[derive(Drop)]
pub struct FakeSpawner {
    outcomes: Outcomes,
    ran: Commands,
    faults: u64,
}

impl Model for FakeSpawner {
    ghost use Rattle.mem_devices.specs.Devices.{Shell};

    ghost Value = { Shell };

    ghost view = { λ s. record { outcomes = s.outcomes; ran = s.ran; faults = s.faults } };
}

impl FakeSpawner {
    /// A shell that has run nothing yet: each run takes the first of the outcomes. It takes no memory.
    pub fn new(outcomes: Outcomes) -> FakeSpawner
        ensures { result ≡ record { outcomes = outcomes; ran = []; faults = 0 } }
    {
        let alloc = *outcomes.0.allocator();
        FakeSpawner {
            outcomes,
            ran: Commands(Vec::new(alloc)),
            faults: 0,
        }
    }

    /// The commands that it was given, in their order.
    pub fn runs(&self) -> &Commands
        ensures { result.now ≡ self.now.ran }
    {
        &self.ran
    }

    /// Notes a command.
    fn note(&mut self, alloc: Global, folder: &Path, command: &str) -> Result<(), NoMemory>
        ensures noted { OnOk result (self.new ≡ record self.old {
          ran = self.old.ran ++ record { folder = folder.now; command = command.now } ∷ [];
        }) }
        ensures same { OnErr result (self.new ≡ self.old) }
    {
        let ran = Command {
            folder: folder.copy(alloc)?,
            command: Text::from_str(alloc, command)?,
        };
        self.ran.0.push(ran)?;
        Ok(())
    }

    /// Takes the first outcome, or has a fault.
    fn next_outcome(&mut self) -> Result<RunOutcome, SpawnError>
        ensures outcome { result ≡ first_outcome self.old.outcomes }
        ensures taken { self.new.outcomes ≡ drop 1 self.old.outcomes }
        ensures ran { self.new.ran ≡ self.old.ran }
        ensures kept { IfOk result (λ outcome. length outcome.output ≤ OUTPUT_BYTES) }
        ensures cause { HasCause SpawnError.Fault self.old.faults self.new.faults result }
    {
        if !self.outcomes.0.is_empty() {
            if let Some(mut outcome) = self.outcomes.0.remove(0) {
                outcome.output.0.truncate(OUTPUT_BYTES);
                return Ok(outcome);
            }
        }
        self.faults = self.faults.saturating_add(1);
        Err(SpawnError::Fault)
    }
}

impl Spawner for FakeSpawner {
    ghost runs = { λ s. Some s.ran };

    ghost fault_count = { λ s. s.faults };

    fn run(&mut self, alloc: Global, folder: &Path, command: &str) -> Result<RunOutcome, SpawnError>
        ensures answer { HasRun self.old.ran (record { folder = folder.now; command = command.now }) result
            (Some self.new.ran) }
        ensures kept { IfOk result (λ outcome. length outcome.output ≤ OUTPUT_BYTES) }
        ensures cause { HasCause SpawnError.Fault self.old.faults self.new.faults result }
        ensures outcome { result ≢ Err SpawnError.Memory → result ≡ first_outcome self.old.outcomes }
        ensures taken { result ≢ Err SpawnError.Memory → self.new.outcomes ≡ drop 1 self.old.outcomes }
        ensures same { result ≡ Err SpawnError.Memory → self.new ≡ self.old }
    {
        match self.note(alloc, folder, command) {
            Err(_) => Err(SpawnError::Memory),
            Ok(()) => self.next_outcome(),
        }
    }

    fn faults(&self) -> u64 {
        self.faults
    }
}
