//! A tree in memory. It keeps its opening, a record of each changing call since, and
//! the names that stand now.
ghost use Rattle.std.specs.Prelude.{◌≡◌, ◌<◌, ◌≤◌, ◌^◌, length, [], IfOk, OnOk, OnErr};
ghost use Rattle.tree_trait.specs.Change.{current};
ghost use Rattle.tree_trait.specs.CrashImages.{IsCrashImage};
ghost use Rattle.tree_trait.specs.Shape.{IsTree};
ghost use Rattle.tree_trait.specs.Answers.{IsLinkText};
ghost use Rattle.mem_tree.specs.Held.{IsKept, fresh, unused_tree, image_chosen, made_in};
ghost use Rattle.mem_tree.specs.Held.{folder_node, file_node, link_node, other_node};
ghost use Rattle.mem_tree.specs.Puts.{mounted_system, put_refusal, put_file_refusal, IsRefusedBy};

use crate::choice::Choice;
use crate::image::image_of;
use crate::links::link_node;
use crate::make::{file_node, folder_node, is_full_for, make_fresh, other_node, put_node};
use crate::mounting::mount_at;
use crate::names::standing_of;
use crate::record::Record;
use mc_text::{NoMemory, Path};
use std::alloc::Global;
use std::marker::Model;
use tree_trait::{AnsweredCalls, FileSystem, TreeError};

/// A tree in memory.
#[derive(Drop)]
pub struct MemTree {
    pub(crate) opening: FileSystem,
    pub(crate) records: Vec<Record>,
    /// What the records make of the opening, with the names alone that lead to a node.
    pub(crate) stands: FileSystem,
    /// The time that it gives to the files that it makes.
    pub(crate) time: i64,
    /// The numbers of the calls that fail.
    pub(crate) fails: Vec<u64>,
    pub(crate) called: u64,
    pub(crate) faults: u64,
    /// For contracts alone.
    pub(crate) answered: AnsweredCalls,
}

impl Model for MemTree {
    ghost use Rattle.std.specs.Prelude.{◌-◌, vec_len, vec_capacity};
    ghost use Rattle.mem_tree.specs.Held.{Held, log_of, IsKept};

    ghost Value = { Held };

    ghost view = { λ m. record {
      log = log_of m.opening m.records.items;
      time = m.time;
      fails = m.fails.items;
      called = m.called;
      faults = m.faults;
      answered = m.answered.calls;
      spare = vec_capacity m.records - vec_len m.records;
    } };

    ghost invariant = { λ m. IsKept m.opening m.records.items m.stands };
}

/// A tree with this opening that was not called yet.
fn unused(alloc: Global, opening: FileSystem, stands: FileSystem, time: i64) -> MemTree
    requires { IsKept opening [] stands }
    ensures { result ≡ unused_tree opening time }
{
    MemTree {
        opening,
        records: Vec::new(alloc),
        stands,
        time,
        fails: Vec::new(alloc),
        called: 0,
        faults: 0,
        answered: AnsweredCalls::new(),
    }
}

impl MemTree {
    /// A root alone, of mode 0o755, on a mount of 2^64 - 1 bytes. `now` is the time that it gives to files.
    pub fn new(alloc: Global, now: i64) -> Result<MemTree, NoMemory>
        ensures { IfOk result (λ tree. tree ≡ unused_tree fresh now) }
    {
        let opening = make_fresh(alloc)?;
        let stands = make_fresh(alloc)?;
        Ok(unused(alloc, opening, stands, now))
    }

    /// Makes a folder of mode 0o755 where a mount begins whose files may have so many bytes, and gives the
    /// mount's number. It copies the opening.
    pub fn mount(&mut self, alloc: Global, at: &Path, capacity: u64) -> Result<u32, TreeError>
        requires unused { self.old.log.changes ≡ [] }
        requires few { length self.old.log.opening.mounts < 1000 }
        ensures made { OnOk result (self.new ≡ record self.old {
          log = record { opening = mounted_system self.old.log.opening at.now capacity; changes = [] };
        }) }
        ensures number { IfOk result (λ number. number ≡ length self.old.log.opening.mounts) }
        ensures same { OnErr result (self.new ≡ self.old) }
        ensures refusal { IsRefusedBy (put_refusal self.old.log.opening at.now) result }
        ensures unused { self.new.log.changes ≡ [] }
    {
        let number = self.opening.mounts.len() as u32;
        let opening = mount_at(alloc, &self.opening, at.names(), capacity)?;
        let Ok(stands) = standing_of(alloc, &opening) else {
            return Err(TreeError::Memory);
        };
        self.opening = opening;
        self.stands = stands;
        Ok(number)
    }

    /// Makes a folder that is on the disk.
    pub fn put_folder(
        &mut self,
        alloc: Global,
        path: &Path,
        mode: u16,
        unnamed: u64,
    ) -> Result<(), TreeError>
        requires unused { self.old.log.changes ≡ [] }
        requires mode { mode ≤ 0o7777 }
        ensures made { OnOk result
            (self.new ≡ record self.old { log = made_in self.old.log path.now (folder_node mode unnamed) }) }
        ensures same { OnErr result (self.new ≡ self.old) }
        ensures refusal { IsRefusedBy (put_refusal self.old.log.opening path.now) result }
        ensures unused { self.new.log.changes ≡ [] }
    {
        let node = folder_node(alloc, mode, unnamed);
        put_node(
            alloc,
            &mut self.opening,
            &mut self.stands,
            path.names(),
            node,
        )
    }

    /// Makes a file that is on the disk.
    pub fn put_file(
        &mut self,
        alloc: Global,
        path: &Path,
        mode: u16,
        mtime: i64,
        bytes: &[u8],
    ) -> Result<(), TreeError>
        requires unused { self.old.log.changes ≡ [] }
        requires mode { mode ≤ 0o7777 }
        requires size { length bytes.now ≤ 2 ^ 63 }
        ensures made { OnOk result (self.new
            ≡ record self.old { log = made_in self.old.log path.now (file_node mode mtime bytes.now) }) }
        ensures same { OnErr result (self.new ≡ self.old) }
        ensures refusal { IsRefusedBy
            (put_file_refusal self.old.log.opening path.now (length bytes.now)) result }
        ensures unused { self.new.log.changes ≡ [] }
    {
        if is_full_for(&self.opening, path.names(), bytes.len()) {
            return Err(TreeError::NoSpace);
        }
        match file_node(alloc, mode, mtime, bytes) {
            Err(_) => Err(TreeError::Memory),
            Ok(node) => put_node(
                alloc,
                &mut self.opening,
                &mut self.stands,
                path.names(),
                node,
            ),
        }
    }

    /// Makes a link that is on the disk, with a text of 1 to 4,095 bytes and no NUL.
    pub fn put_link(&mut self, alloc: Global, path: &Path, text: &str) -> Result<(), TreeError>
        requires unused { self.old.log.changes ≡ [] }
        requires link_text { IsLinkText text.now }
        ensures made { OnOk result
            (self.new ≡ record self.old { log = made_in self.old.log path.now (link_node text.now) }) }
        ensures same { OnErr result (self.new ≡ self.old) }
        ensures refusal { IsRefusedBy (put_refusal self.old.log.opening path.now) result }
        ensures unused { self.new.log.changes ≡ [] }
    {
        match link_node(alloc, text) {
            Err(_) => Err(TreeError::Memory),
            Ok(node) => put_node(
                alloc,
                &mut self.opening,
                &mut self.stands,
                path.names(),
                node,
            ),
        }
    }

    /// Makes a thing that is on the disk and neither file, folder nor link.
    pub fn put_other(&mut self, alloc: Global, path: &Path) -> Result<(), TreeError>
        requires unused { self.old.log.changes ≡ [] }
        ensures made { OnOk result
            (self.new ≡ record self.old { log = made_in self.old.log path.now other_node }) }
        ensures same { OnErr result (self.new ≡ self.old) }
        ensures refusal { IsRefusedBy (put_refusal self.old.log.opening path.now) result }
        ensures unused { self.new.log.changes ≡ [] }
    {
        let node = other_node(alloc);
        put_node(
            alloc,
            &mut self.opening,
            &mut self.stands,
            path.names(),
            node,
        )
    }

    /// Names the calls that fail where nothing else stands in their way, counted from 1.
    pub fn fail_calls(&mut self, alloc: Global, numbers: &[u64]) -> Result<(), NoMemory>
        ensures ok { OnOk result (self.new ≡ record self.old { fails = numbers.now }) }
        ensures err { OnErr result (self.new ≡ self.old) }
    {
        self.fails = numbers.to_vec(alloc)?;
        Ok(())
    }

    /// Makes room for so many changing calls.
    pub fn reserve(&mut self, _alloc: Global, calls: usize) -> Result<(), NoMemory>
        ensures ok { OnOk result (calls ≤ self.new.spare) }
        ensures same { self.new ≡ record self.old { spare = self.new.spare } }
    {
        self.records.reserve(calls)?;
        Ok(())
    }

    /// What it holds is a tree, if its opening was one. An image need not be one.
    pub fn shape(&self)
        ensures { IsTree self.now.log.opening → IsTree (current self.now.log) }
    {
        let _ = &self.opening;
    }

    /// How many changing calls there were, done or refused. Those that found no memory don't count.
    pub fn calls(&self) -> u64
        ensures { result ≡ length self.now.log.changes }
    {
        self.records.len() as u64
    }

    /// What a crash after so many changing calls may leave, as a tree that was not called yet: of the
    /// changes of names and modes that are unsynced then those stand that the choice keeps, and its fill
    /// says what the files with unsynced writes hold.
    pub fn image(&self, alloc: Global, at_call: u64, choice: &Choice) -> Result<MemTree, NoMemory>
        requires { at_call ≤ length self.now.log.changes }
        ensures chosen { IfOk result (λ tree.
            tree ≡ unused_tree (image_chosen self.now.log at_call choice.now) self.now.time) }
        ensures member { IfOk result (λ tree. IsCrashImage self.now.log at_call tree.log.opening) }
    {
        let records = &self.records[..at_call as usize];
        let image = image_of(
            alloc,
            &self.opening,
            records,
            choice.keep.0.as_slice(),
            choice.fill,
        )?;
        let stands = standing_of(alloc, &image)?;
        Ok(unused(alloc, image, stands, self.time))
    }
}
