//! What is copied, and what is done before and on the way.
use mem_tree::MemTree;
use rows_page::{Page, number, two_fields};
use rows_trees::{move_thing, plant_file};
use tree_trait::Tree;

/// The orders of a block. A field that isn't spelled is empty.
#[derive(Clone, Copy)]
pub struct Orders<'a> {
    pub source: &'a str,
    pub target: &'a str,
    /// A letter for each trouble: `r` tries again, `s` leaves the thing as it is, `a` whatever comes into
    /// such a trouble; and for each question the letter of its box. Where none is left the copy is aborted.
    pub answers: &'a str,
    /// The copy is aborted after so many steps.
    pub abort: &'a str,
    /// The numbers of the tree's calls that fault.
    pub faults: &'a str,
    /// The room of the mount that begins at `/t`.
    pub room: &'a str,
    /// Two paths: the thing at the first goes to the second before the copy begins.
    pub moved: &'a str,
    /// A folder, and how many names of a part are taken there.
    pub taken: &'a str,
    /// Another job has a claim on each path of a part, if this is spelled.
    pub claimed: &'a str,
    /// A path of which it is told what a crash may leave there.
    pub crash: &'a str,
}

/// The orders that lines spell.
pub fn orders_of(lines: &str) -> Orders<'_> {
    Orders {
        source: field(lines, "from "),
        target: field(lines, "to "),
        answers: field(lines, "answers "),
        abort: field(lines, "abort "),
        faults: field(lines, "faults "),
        room: field(lines, "room "),
        moved: field(lines, "move "),
        taken: field(lines, "taken "),
        claimed: field(lines, "claimed "),
        crash: field(lines, "crash "),
    }
}

/// The line that begins with this word.
fn field<'a>(lines: &'a str, word: &str) -> &'a str {
    for line in lines.lines() {
        if let Some(rest) = line.strip_prefix(word) {
            return rest;
        }
    }
    ""
}

/// What is done before the copy begins.
pub fn prepare(page: &mut Page, tree: &mut MemTree, orders: &Orders) {
    if !orders.moved.is_empty() {
        move_thing(page, tree, orders.moved, ' ');
    }
    if !orders.taken.is_empty() {
        take_names(page, tree, orders.taken);
    }
    note_faults(page, tree, orders.faults);
}

/// Takes the first so many names that a part of job 1 may have in a folder.
fn take_names<T: Tree>(page: &mut Page, tree: &mut T, taken: &str) {
    let (folder, count) = two_fields(taken, ' ');
    for place in 0..number(count) {
        let mut path = Page::new(page.alloc());
        path.tell(format_args!("{folder}/.mc.1.{place}.part"));
        plant_file(page, tree, path.text(), 0o600);
    }
}

fn note_faults(page: &mut Page, tree: &mut MemTree, faults: &str) {
    let mut numbers = Vec::new(page.alloc());
    for fault in faults.split_whitespace() {
        page.need(numbers.push(number(fault) as u64).is_ok());
    }
    page.need(tree.fail_calls(page.alloc(), numbers.as_slice()).is_ok());
}
