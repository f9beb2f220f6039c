//! An editor as the rules describe it: a list of bytes with a point, and two lists of texts with points.
use crate::brackets::partner_of;
use crate::moves;
use crate::searches::all_replaced;
use crate::slices::{between, place_of, spliced};
use anyhow::Result;
use mc_edit::{EditCmd, EditError};
use std::alloc::Global;

/// A text with its point.
#[derive(Drop)]
pub struct Pointed {
    bytes: Vec<u8>,
    point: usize,
}

impl Pointed {
    fn copied(alloc: Global, bytes: &[u8], point: usize) -> Result<Pointed> {
        Ok(Pointed {
            bytes: Vec::from_slice(alloc, bytes)?,
            point,
        })
    }
}

/// What stood before a change, and what stood after it.
#[derive(Drop)]
struct Change {
    before: Pointed,
    after: Pointed,
}

/// Where the block begins, and where it was fixed to end.
#[derive(Clone, Copy, Drop)]
enum Mark {
    Absent,
    Begun(usize),
    Ended(usize, usize),
}

#[derive(Drop)]
pub struct Plain {
    pub bytes: Vec<u8>,
    pub point: usize,
    mark: Mark,
    past: Vec<Change>,
    future: Vec<Change>,
}

/// What a command came to: None, or why it was refused.
type Outcome = Result<Option<EditError>>;

impl Plain {
    pub fn new(alloc: Global, bytes: Vec<u8>) -> Plain {
        Plain {
            bytes,
            point: 0,
            mark: Mark::Absent,
            past: Vec::new(alloc),
            future: Vec::new(alloc),
        }
    }

    /// Plays one command.
    pub fn play(&mut self, alloc: Global, command: &EditCmd) -> Outcome {
        match command {
            EditCmd::Mark => self.mark(),
            EditCmd::CopyBlock => self.copy_block(alloc),
            EditCmd::MoveBlock => self.move_block(alloc),
            EditCmd::DeleteBlock => self.delete_block(alloc),
            EditCmd::Undo => self.undo(alloc),
            EditCmd::Redo => self.redo(alloc),
            EditCmd::Find(what) => self.find(what.0.as_slice()),
            EditCmd::Bracket => self.bracket(),
            EditCmd::ReplaceAll(what, new) => {
                self.replace(alloc, what.0.as_slice(), new.0.as_slice())
            }
            EditCmd::Insert(character) => self.insert(alloc, *character),
            EditCmd::NewLine => self.insert(alloc, '\n'),
            other => self.cut_or_walk(alloc, other),
        }
    }

    fn cut_or_walk(&mut self, alloc: Global, command: &EditCmd) -> Outcome {
        let span = moves::cut_by(alloc, self.bytes.as_slice(), self.point, command)?;
        if let Some((from, to)) = span {
            return self.cut(alloc, from, to);
        }
        let place = moves::place_after(alloc, self.bytes.as_slice(), self.point, command)?;
        self.go(Some(place))
    }

    fn find(&mut self, what: &[u8]) -> Outcome {
        let place = place_of(self.bytes.as_slice(), what, self.point.saturating_add(1));
        self.go(place)
    }

    fn bracket(&mut self) -> Outcome {
        let place = partner_of(self.bytes.as_slice(), self.point);
        self.go(place)
    }

    fn go(&mut self, place: Option<usize>) -> Outcome {
        let Some(at) = place else {
            return Ok(Some(EditError::NotFound));
        };
        self.point = at;
        Ok(None)
    }

    /// The text becomes another one, which is a change unless it is the same.
    fn change(&mut self, alloc: Global, bytes: Vec<u8>, point: usize) -> Outcome {
        if bytes.as_slice() != self.bytes.as_slice() {
            let before = Pointed::copied(alloc, self.bytes.as_slice(), self.point)?;
            let after = Pointed::copied(alloc, bytes.as_slice(), point)?;
            self.past.push(Change { before, after })?;
            self.future.clear();
            self.mark = Mark::Absent;
            self.bytes = bytes;
        }
        self.point = point;
        Ok(None)
    }

    fn insert(&mut self, alloc: Global, character: char) -> Outcome {
        let mut room = [0; 4];
        let new = character.encode_utf8(&mut room).as_bytes();
        let bytes = spliced(alloc, self.bytes.as_slice(), self.point, self.point, new)?;
        self.change(alloc, bytes, self.point.saturating_add(new.len()))
    }

    fn cut(&mut self, alloc: Global, from: usize, to: usize) -> Outcome {
        let bytes = spliced(alloc, self.bytes.as_slice(), from, to, b"")?;
        self.change(alloc, bytes, from)
    }

    fn replace(&mut self, alloc: Global, what: &[u8], new: &[u8]) -> Outcome {
        match all_replaced(alloc, self.bytes.as_slice(), self.point, what, new)? {
            Some(whole) => self.change(alloc, whole.bytes, whole.end),
            None => Ok(Some(EditError::NotFound)),
        }
    }

    fn undo(&mut self, alloc: Global) -> Outcome {
        let Some(change) = self.past.pop() else {
            return Ok(Some(EditError::NothingToUndo));
        };
        self.show(alloc, &change.before)?;
        self.future.push(change)?;
        Ok(None)
    }

    fn redo(&mut self, alloc: Global) -> Outcome {
        let Some(change) = self.future.pop() else {
            return Ok(Some(EditError::NothingToRedo));
        };
        self.show(alloc, &change.after)?;
        self.past.push(change)?;
        Ok(None)
    }

    /// A text that stood once, with its point. No block stays.
    fn show(&mut self, alloc: Global, text: &Pointed) -> Result<()> {
        self.bytes = Vec::from_slice(alloc, text.bytes.as_slice())?;
        self.point = text.point;
        self.mark = Mark::Absent;
        Ok(())
    }

    fn mark(&mut self) -> Outcome {
        self.mark = match self.mark {
            Mark::Begun(start) => Mark::Ended(start, self.point),
            Mark::Absent | Mark::Ended(_, _) => Mark::Begun(self.point),
        };
        Ok(None)
    }

    /// The places between which the block lies.
    fn block(&self) -> Option<(usize, usize)> {
        let (one, other) = match self.mark {
            Mark::Absent => return None,
            Mark::Begun(start) => (start, self.point),
            Mark::Ended(start, end) => (start, end),
        };
        if one == other {
            return None;
        }
        Some((one.min(other), one.max(other)))
    }

    fn copy_block(&mut self, alloc: Global) -> Outcome {
        let Some((start, end)) = self.block() else {
            return Ok(Some(EditError::NoBlock));
        };
        let bytes = self.bytes.as_slice();
        let copied = spliced(
            alloc,
            bytes,
            self.point,
            self.point,
            between(bytes, start, end),
        )?;
        self.change(alloc, copied, self.point)
    }

    fn delete_block(&mut self, alloc: Global) -> Outcome {
        let Some((start, end)) = self.block() else {
            return Ok(Some(EditError::NoBlock));
        };
        self.cut(alloc, start, end)
    }

    /// A copy, and then the old place is removed; before the point that shifts the point.
    fn move_block(&mut self, alloc: Global) -> Outcome {
        let Some((start, end)) = self.block() else {
            return Ok(Some(EditError::NoBlock));
        };
        let point = self.point;
        if start <= point && point <= end {
            return Ok(None);
        }
        let size = end.saturating_sub(start);
        let bytes = self.bytes.as_slice();
        let copied = spliced(alloc, bytes, point, point, between(bytes, start, end))?;
        let old = if point < start {
            start.saturating_add(size)
        } else {
            start
        };
        let moved = spliced(alloc, copied.as_slice(), old, old.saturating_add(size), b"")?;
        let after = if point < start {
            point
        } else {
            point.saturating_sub(size)
        };
        self.change(alloc, moved, after)
    }
}
