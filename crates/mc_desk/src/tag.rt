//! A type that the caller chooses, by which contracts name the world as a session finds it.
use std::marker::Brand;

/// What there is at the opening of a session. It stands in contracts alone.
pub trait Tag {
    ghost use Rattle.std.specs.Prelude.{ℕ, List, Option};
    ghost use Rattle.tree_trait.specs.Change.{CallLog};
    ghost use Rattle.tree_trait.specs.declared.devices.Command.{Command};
    ghost use Rattle.mc_desk.specs.declared.starts.Start.{Start};

    /// What the session starts with, where that is known.
    ghost start: { Option Start };

    /// What the tree has been through, where that is known.
    ghost opening: { Option CallLog };

    /// The bytes that the keyboard will give, where they are known.
    ghost stream: { Option (List ℕ) };

    /// The bytes that the screen was given, where they are known.
    ghost given: { Option (List ℕ) };

    /// The commands that the spawner ran, where they are known.
    ghost runs: { Option (List Command) };

    /// How often each device has failed.
    ghost tree_faults: { ℕ };

    ghost source_faults: { ℕ };

    ghost sink_faults: { ℕ };

    ghost spawner_faults: { ℕ };
}

impl Tag for Brand {
    ghost use Rattle.std.specs.Prelude.{None};

    ghost start = { None };

    ghost opening = { None };

    ghost stream = { None };

    ghost given = { None };

    ghost runs = { None };

    ghost tree_faults = { 0 };

    ghost source_faults = { 0 };

    ghost sink_faults = { 0 };

    ghost spawner_faults = { 0 };
}
