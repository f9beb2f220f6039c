//! What may be set in the list of options.
ghost use Rattle.std.specs.Prelude.{◌≡◌, map, slice_get, IfOk};
ghost use Rattle.panel_boxes.specs.Choices.{all_options, option_words};

use mc_text::{NoMemory, Rows, Text};
use panel_listing::Order;
use std::alloc::Global;

/// What a row of the list does for the current panel, but for the last one, which is for all
/// patterns that are typed.
#[derive(Clone, Copy, Debug)]
pub enum PanelOption {
    /// Rows of the format that panels have at first.
    ListFull,
    /// Names alone.
    ListBrief,
    /// Rows of a format that is asked for.
    ListUser,
    SortBy(Order),
    /// The order is turned round.
    Reverse,
    /// A pattern is asked for, which files have to match.
    Filter,
    /// Shell patterns or regular expressions.
    ShellPatterns,
}

/// All of them, in the order of the list.
fn all_options() -> [PanelOption; 11]
    ensures { result ≡ all_options }
{
    [
        PanelOption::ListFull,
        PanelOption::ListBrief,
        PanelOption::ListUser,
        PanelOption::SortBy(Order::Name),
        PanelOption::SortBy(Order::Extension),
        PanelOption::SortBy(Order::Size),
        PanelOption::SortBy(Order::Time),
        PanelOption::SortBy(Order::Unsorted),
        PanelOption::Reverse,
        PanelOption::Filter,
        PanelOption::ShellPatterns,
    ]
}

/// The option in a row of the list, if there is one.
pub fn option_at(row: usize) -> Option<PanelOption>
    ensures { result ≡ slice_get all_options row }
{
    let options = all_options();
    options.as_slice().get(row).copied()
}

/// The rows of the list.
pub fn option_rows(alloc: Global) -> Result<Rows, NoMemory>
    ensures { IfOk result (λ rows. rows ≡ map option_words all_options) }
{
    let options = all_options();
    let mut rows = Rows::new(alloc);
    for option in options.as_slice() {
        rows.push(Text::from_str(alloc, words_of(*option))?)?;
    }
    Ok(rows)
}

/// What the row of an option says.
fn words_of(option: PanelOption) -> &'static str
    ensures { result.now ≡ option_words option }
{
    match option {
        PanelOption::ListFull => "Listing full",
        PanelOption::ListBrief => "Listing brief",
        PanelOption::ListUser => "Listing user",
        PanelOption::SortBy(order) => order_words(order),
        PanelOption::Reverse => "Reverse",
        PanelOption::Filter => "Filter",
        PanelOption::ShellPatterns => "Shell patterns",
    }
}

fn order_words(order: Order) -> &'static str
    ensures { result.now ≡ option_words (PanelOption.SortBy order) }
{
    match order {
        Order::Name => "Sort name",
        Order::Extension => "Sort extension",
        Order::Size => "Sort size",
        Order::Time => "Sort time",
        Order::Unsorted => "Unsorted",
    }
}
