//! A list that contracts see as a list, for file systems.
ghost use Rattle.std.specs.Prelude.{◌≡◌, ◌<◌, ◌≤◌, [], ◌∷◌, ◌++◌, length, take};
ghost use Rattle.std.specs.Prelude.{insert, remove, Some, slice_set, unwrap_or, ◌-◌};
ghost use Rattle.std.specs.Prelude.{IfOk, OnOk, OnErr, IfErr, slice_get, alloc_error};
ghost use Rattle.tree_trait.specs.FileSystem.{no_node};

use crate::file_system::Node;
use std::alloc::{AllocError, Global};
use std::marker::Model;

/// A list.
#[derive(Drop)]
pub struct Seq<T> {
    items: Vec<T>,
}

impl<T> Model for Seq<T> {
    ghost use Rattle.std.specs.Prelude.{List};

    ghost Value = { List T };

    ghost view = { λ s. s.items.items };
}

impl<T> Seq<T> {
    /// None yet. It takes no memory.
    pub fn new(alloc: Global) -> Seq<T>
        ensures { result ≡ [] }
    {
        Seq {
            items: Vec::new(alloc),
        }
    }

    /// The items of a vector. It takes no memory.
    pub fn from_vec(items: Vec<T>) -> Seq<T>
        ensures { result ≡ items.items }
    {
        Seq { items }
    }

    /// The same items once more.
    pub fn from_slice(alloc: Global, items: &[T]) -> Result<Seq<T>, AllocError>
    where
        T: Copy,
        ensures { IfOk result (λ list. list ≡ items.now) }
    {
        Ok(Seq {
            items: Vec::from_slice(alloc, items)?,
        })
    }

    /// The items.
    pub fn as_slice(&self) -> &[T]
        ensures { result.now ≡ self.now }
    {
        self.items.as_slice()
    }

    /// How many items there are.
    pub fn len(&self) -> usize
        ensures { result ≡ length self.now }
    {
        self.items.len()
    }
}

impl<T: Drop> Seq<T> {
    /// One more at the end.
    pub fn push(&mut self, item: T) -> Result<(), AllocError>
        ensures ok { OnOk result (self.new ≡ self.old ++ item ∷ []) }
        ensures err { OnErr result (self.new ≡ self.old) }
    {
        self.items.push(item)?;
        Ok(())
    }

    /// One more in front, which moves all others.
    pub fn push_front(&mut self, item: T) -> Result<(), AllocError>
        ensures ok { OnOk result (self.new ≡ item ∷ self.old) }
        ensures err { OnErr result (self.new ≡ self.old) }
    {
        self.items.insert(0, item)?;
        Ok(())
    }

    /// Puts an item at a place, which moves those behind it.
    pub fn insert(&mut self, at: usize, item: T) -> Result<(), AllocError>
        requires { at ≤ length self.old }
        ensures ok { OnOk result (self.new ≡ insert self.old at item) }
        ensures err { OnErr result (self.new ≡ self.old) }
    {
        self.items.insert(at, item)?;
        Ok(())
    }

    /// Takes an item out, and moves those behind it. It takes no memory.
    pub fn remove(&mut self, at: usize) -> T
        requires { at < length self.old }
        ensures item { slice_get self.old at ≡ Some result }
        ensures left { self.new ≡ remove self.old at }
    {
        self.items.remove(at)
    }

    /// Takes an item out, and puts another in front. It takes no memory.
    pub fn replace_in_front(&mut self, at: usize, item: T) -> T
        requires { at < length self.old }
        ensures item { slice_get self.old at ≡ Some result }
        ensures left { self.new ≡ item ∷ remove self.old at }
    {
        let old = self.items.remove(at);
        let _ = self.items.insert(0, item);
        old
    }

    /// Takes back what `push` added.
    pub fn pop(&mut self)
        ensures { self.new ≡ take (length self.old - 1) self.old }
    {
        let _ = self.items.pop();
    }
}

impl Seq<Node> {
    /// Gives a node another mode. It takes no memory.
    pub fn set_mode(&mut self, i: usize, mode: u16)
        ensures { self.new ≡ slice_set self.old i
            (record (unwrap_or (slice_get self.old i) no_node) { mode = mode }) }
    {
        if i < self.items.len() {
            self.items[i].mode = mode;
        }
    }

    /// Gives a node other bytes, and the time of their writing. It takes no memory.
    pub fn set_bytes(&mut self, i: usize, bytes: Seq<u8>, mtime: i64)
        ensures { self.new ≡ slice_set self.old i
            (record (unwrap_or (slice_get self.old i) no_node) { bytes = bytes; mtime = mtime }) }
    {
        if i < self.items.len() {
            let node = &mut self.items[i];
            node.bytes = bytes;
            node.mtime = mtime;
        }
    }
}
