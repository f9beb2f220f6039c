//! A text that grows, and whether all went well on the way.
use std::alloc::Global;
use std::convert::AsStr;
use std::fmt::Display;

/// The text, and whether nothing was wanting so far.
#[derive(Drop)]
pub struct Page {
    text: String,
    alloc: Global,
    is_whole: bool,
}

impl Page {
    /// An empty page.
    pub fn new(alloc: Global) -> Page {
        Page {
            text: String::new(alloc),
            alloc,
            is_whole: true,
        }
    }

    /// Where the program's memory comes from.
    pub fn alloc(&self) -> Global {
        self.alloc
    }

    /// Writes a text.
    pub fn put(&mut self, text: &str) {
        let done = self.text.push_str(text).is_ok();
        self.need(done);
    }

    /// Writes a value.
    pub fn tell<T: Display + Drop>(&mut self, value: T) {
        let done = write!(self.text, "{value}").is_ok();
        self.need(done);
    }

    /// Notes that something is wanting.
    pub fn fail(&mut self) {
        self.is_whole = false;
    }

    /// Notes that something is wanting, unless this holds.
    pub fn need(&mut self, holds: bool) {
        self.is_whole = self.is_whole && holds;
    }

    /// What stands on the page.
    pub fn text(&self) -> &str {
        self.text.as_str()
    }

    /// Whether nothing was wanting.
    pub fn is_whole(&self) -> bool {
        self.is_whole
    }
}
