//! Wishes as rows spell them.
use panel_listing::{Order, Wish};
use rows_page::{Page, two_fields};
use tagging::Pattern;

/// A wish: an order, `reversed` and `hidden` where that is wanted, and behind a bar a filter.
pub fn wish_of(page: &mut Page, field: &str) -> Wish {
    let (words, filter) = two_fields(field, '|');
    let (order, flags) = two_fields(words, ' ');
    Wish {
        order: order_of(page, order),
        reverse: flags.contains("reversed"),
        hidden: flags.contains("hidden"),
        filter: filter_of(page, filter),
    }
}

/// By name, with the hidden ones.
pub fn all_by_name() -> Wish {
    Wish {
        order: Order::Name,
        reverse: false,
        hidden: true,
        filter: None,
    }
}

fn order_of(page: &mut Page, word: &str) -> Order {
    match word {
        "name" => Order::Name,
        "extension" => Order::Extension,
        "size" => Order::Size,
        "time" => Order::Time,
        "unsorted" => Order::Unsorted,
        _ => {
            page.fail();
            Order::Name
        }
    }
}

fn filter_of(page: &mut Page, pattern: &str) -> Option<Pattern> {
    if pattern.is_empty() {
        return None;
    }
    let pattern = Pattern::shell(page.alloc(), pattern).ok();
    page.need(pattern.is_some());
    pattern
}
