//! The small list types: each is a `Vec` of its members, and contracts see it as the list of them.
ghost use Rattle.std.specs.Prelude.{◌≡◌, [], ◌∷◌, ◌++◌, length, IfOk, OnOk, OnErr};

use crate::error::NoMemory;
use crate::name::Name;
use crate::path::Path;
use crate::text::{Bytes, Text};
use std::alloc::Global;
use std::marker::Model;

/// Some texts.
#[derive(Debug, Drop)]
pub struct Texts(pub Vec<Text>);

impl Model for Texts {
    ghost use Rattle.std.specs.Prelude.{List, ℕ};

    ghost Value = { List (List ℕ) };

    ghost view = { λ l. l.0.items };
}

impl Texts {
    /// None yet. It takes no memory.
    pub fn new(alloc: Global) -> Texts
        ensures { result ≡ [] }
    {
        Texts(Vec::new(alloc))
    }

    /// One more at the end.
    pub fn push(&mut self, item: Text) -> Result<(), NoMemory>
        ensures done { OnOk result (self.new ≡ self.old ++ item ∷ []) }
        ensures refused { OnErr result (self.new ≡ self.old) }
    {
        self.0.push(item)?;
        Ok(())
    }

    /// The members.
    pub fn as_slice(&self) -> &[Text]
        ensures { result.now ≡ self.now }
    {
        self.0.as_slice()
    }

    /// The same list once more.
    pub fn copy(&self, alloc: Global) -> Result<Texts, NoMemory>
        ensures { IfOk result (λ copy. copy ≡ self.now) }
    {
        let mut copies = Vec::new(alloc);
        for item in &self.0 {
            copies.push(item.copy(alloc)?)?;
        }
        Ok(Texts(copies))
    }
}

/// Some file names.
#[derive(Debug, Drop)]
pub struct Names(pub Vec<Name>);

impl Model for Names {
    ghost use Rattle.std.specs.Prelude.{List, ℕ};

    ghost Value = { List (List ℕ) };

    ghost view = { λ l. l.0.items };
}

impl Names {
    /// None yet. It takes no memory.
    pub fn new(alloc: Global) -> Names
        ensures { result ≡ [] }
    {
        Names(Vec::new(alloc))
    }

    /// One more at the end.
    pub fn push(&mut self, item: Name) -> Result<(), NoMemory>
        ensures done { OnOk result (self.new ≡ self.old ++ item ∷ []) }
        ensures refused { OnErr result (self.new ≡ self.old) }
    {
        self.0.push(item)?;
        Ok(())
    }

    /// The members.
    pub fn as_slice(&self) -> &[Name]
        ensures { result.now ≡ self.now }
    {
        self.0.as_slice()
    }

    /// The same list once more.
    pub fn copy(&self, alloc: Global) -> Result<Names, NoMemory>
        ensures { IfOk result (λ copy. copy ≡ self.now) }
    {
        let mut copies = Vec::new(alloc);
        for item in &self.0 {
            copies.push(item.copy(alloc)?)?;
        }
        Ok(Names(copies))
    }
}

/// Some paths.
#[derive(Debug, Drop)]
pub struct Paths(pub Vec<Path>);

impl Model for Paths {
    ghost use Rattle.std.specs.Prelude.{List, ℕ};

    ghost Value = { List (List (List ℕ)) };

    ghost view = { λ l. l.0.items };
}

impl Paths {
    /// None yet. It takes no memory.
    pub fn new(alloc: Global) -> Paths
        ensures { result ≡ [] }
    {
        Paths(Vec::new(alloc))
    }

    /// One more at the end.
    pub fn push(&mut self, item: Path) -> Result<(), NoMemory>
        ensures done { OnOk result (self.new ≡ self.old ++ item ∷ []) }
        ensures refused { OnErr result (self.new ≡ self.old) }
    {
        self.0.push(item)?;
        Ok(())
    }

    /// The members.
    pub fn as_slice(&self) -> &[Path]
        ensures { result.now ≡ self.now }
    {
        self.0.as_slice()
    }

    /// The same list once more.
    pub fn copy(&self, alloc: Global) -> Result<Paths, NoMemory>
        ensures { IfOk result (λ copy. copy ≡ self.now) }
    {
        let mut copies = Vec::new(alloc);
        for item in &self.0 {
            copies.push(item.copy(alloc)?)?;
        }
        Ok(Paths(copies))
    }
}

/// The rows of a screen or a box, from the top.
#[derive(Debug, Drop)]
pub struct Rows(pub Vec<Text>);

impl Model for Rows {
    ghost use Rattle.std.specs.Prelude.{List, ℕ};

    ghost Value = { List (List ℕ) };

    ghost view = { λ l. l.0.items };
}

impl Rows {
    /// None yet. It takes no memory.
    pub fn new(alloc: Global) -> Rows
        ensures { result ≡ [] }
    {
        Rows(Vec::new(alloc))
    }

    /// One more at the end.
    pub fn push(&mut self, item: Text) -> Result<(), NoMemory>
        ensures done { OnOk result (self.new ≡ self.old ++ item ∷ []) }
        ensures refused { OnErr result (self.new ≡ self.old) }
    {
        self.0.push(item)?;
        Ok(())
    }

    /// The members.
    pub fn as_slice(&self) -> &[Text]
        ensures { result.now ≡ self.now }
    {
        self.0.as_slice()
    }

    /// The same list once more.
    pub fn copy(&self, alloc: Global) -> Result<Rows, NoMemory>
        ensures { IfOk result (λ copy. copy ≡ self.now) }
    {
        let mut copies = Vec::new(alloc);
        for item in &self.0 {
            copies.push(item.copy(alloc)?)?;
        }
        Ok(Rows(copies))
    }
}

/// Some lines, each without its end.
#[derive(Debug, Drop)]
pub struct Lines(pub Vec<Bytes>);

impl Model for Lines {
    ghost use Rattle.std.specs.Prelude.{List, ℕ};

    ghost Value = { List (List ℕ) };

    ghost view = { λ l. l.0.items };
}

impl Lines {
    /// None yet. It takes no memory.
    pub fn new(alloc: Global) -> Lines
        ensures { result ≡ [] }
    {
        Lines(Vec::new(alloc))
    }

    /// One more at the end.
    pub fn push(&mut self, item: Bytes) -> Result<(), NoMemory>
        ensures done { OnOk result (self.new ≡ self.old ++ item ∷ []) }
        ensures refused { OnErr result (self.new ≡ self.old) }
    {
        self.0.push(item)?;
        Ok(())
    }

    /// The members.
    pub fn as_slice(&self) -> &[Bytes]
        ensures { result.now ≡ self.now }
    {
        self.0.as_slice()
    }

    /// The same list once more.
    pub fn copy(&self, alloc: Global) -> Result<Lines, NoMemory>
        ensures { IfOk result (λ copy. copy ≡ self.now) }
    {
        let mut copies = Vec::new(alloc);
        for item in &self.0 {
            copies.push(item.copy(alloc)?)?;
        }
        Ok(Lines(copies))
    }
}

/// Answers yes or no, in an order that their user says.
#[derive(Debug, Drop)]
pub struct Bits(pub Vec<bool>);

impl Model for Bits {
    ghost use Rattle.std.specs.Prelude.{List, Bool};

    ghost Value = { List Bool };

    ghost view = { λ l. l.0.items };
}

/// Positions in a list.
#[derive(Debug, Drop)]
pub struct Places(pub Vec<usize>);

impl Model for Places {
    ghost use Rattle.std.specs.Prelude.{List, ℕ};

    ghost Value = { List ℕ };

    ghost view = { λ l. l.0.items };
}
