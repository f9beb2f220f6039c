//! What a person wants to see of a folder, and in which order.
ghost use Rattle.std.specs.Prelude.{◌≡◌, [], unwrap_or};
ghost use Rattle.panel_listing.specs.Orders.{is_hidden, shows, behind_last_dot, extension};
ghost use Rattle.panel_listing.specs.Orders.{key_cmp, order_cmp, group, within_cmp, item_cmp};

use crate::item::Item;
use std::cmp::Ordering;
use tagging::Pattern;

/// By what the items of a group stand; those that tie stand by their names. `Unsorted` is as the tree gave
/// them, which is in the order of their names.
#[derive(Clone, Copy, Debug, PartialEq, Eq)]
pub enum Order {
    Name,
    Extension,
    Size,
    Time,
    Unsorted,
}

/// What is to be shown: in which order, turned round or not, with the hidden names (those that begin with a
/// dot) or without, and which files by name. The filter hides no folder and no link to one.
#[derive(Debug, Drop)]
pub struct Wish {
    pub order: Order,
    pub reverse: bool,
    pub hidden: bool,
    pub filter: Option<Pattern>,
}

impl Wish {
    /// Whether an item is shown whose name the filter lets through, or not.
    pub fn shows(&self, item: &Item, passes: bool) -> bool
        ensures { result ≡ shows self.now item.now passes }
    {
        (self.hidden || !is_hidden(item.name.text())) && (item.leads_to_folder() || passes)
    }

    /// How two items stand in a list: folders first, and in each group in the order that is wished for.
    pub fn compare(&self, mine: &Item, theirs: &Item) -> Ordering
        ensures { result ≡ item_cmp self.now mine.now theirs.now }
    {
        match group(mine).cmp(&group(theirs)) {
            Ordering::Less => Ordering::Less,
            Ordering::Equal => self.compare_within(mine, theirs),
            Ordering::Greater => Ordering::Greater,
        }
    }

    /// How two items of one group stand.
    fn compare_within(&self, mine: &Item, theirs: &Item) -> Ordering
        ensures { result ≡ within_cmp self.now mine.now theirs.now }
    {
        if self.reverse {
            return self.order.compare(theirs, mine);
        }
        self.order.compare(mine, theirs)
    }
}

impl Order {
    /// How two items stand in this order, where ties go by the names.
    fn compare(self, mine: &Item, theirs: &Item) -> Ordering
        ensures { result ≡ order_cmp self mine.now theirs.now }
    {
        match self.compare_keys(mine, theirs) {
            Ordering::Less => Ordering::Less,
            Ordering::Equal => mine.name.order(&theirs.name),
            Ordering::Greater => Ordering::Greater,
        }
    }

    /// How two items stand by what the order looks at.
    fn compare_keys(self, mine: &Item, theirs: &Item) -> Ordering
        ensures { result ≡ key_cmp self mine.now theirs.now }
    {
        match self {
            Order::Name => Ordering::Equal,
            Order::Extension => extension(mine.name.text()).cmp(extension(theirs.name.text())),
            Order::Size => mine.size.cmp(&theirs.size),
            Order::Time => mine.mtime.cmp(&theirs.mtime),
            Order::Unsorted => Ordering::Equal,
        }
    }
}

/// Which group an item stands in: folders, or the others.
fn group(item: &Item) -> u8
    ensures { result ≡ group item.now }
{
    if item.leads_to_folder() { 0 } else { 1 }
}

/// Whether a name begins with a dot.
fn is_hidden(name: &str) -> bool
    ensures { result ≡ is_hidden name.now }
{
    match name.as_bytes() {
        [] => false,
        [first, ..] => *first == b'.',
    }
}

/// What stands behind the last dot of a name that isn't its first byte, or nothing.
fn extension(name: &str) -> &[u8]
    ensures { result.now ≡ extension name.now }
{
    match name.as_bytes() {
        [] => &[],
        [_, rest @ ..] => behind_last_dot(rest),
    }
}

/// What stands behind the last dot, or nothing.
fn behind_last_dot(text: &[u8]) -> &[u8]
    ensures { result.now ≡ unwrap_or (behind_last_dot text.now) [] }
{
    let mut found: &[u8] = &[];
    let mut rest = text;
    while let Some((byte, behind)) = rest.split_first() {
        if *byte == b'.' {
            found = behind;
        }
        rest = behind;
    }
    found
}
