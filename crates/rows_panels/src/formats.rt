//! Formats.
use panel_listing::Format;
use rows_page::Page;

/// How many columns a format has, and whether the panel has the whole screen; or why the text is none.
pub fn tell_format(page: &mut Page, text: &str) {
    match Format::parse(page.alloc(), text) {
        Ok(format) => tell_parsed(page, &format),
        Err(error) => page.tell(error),
    }
}

fn tell_parsed(page: &mut Page, format: &Format) {
    page.put(if format.is_full() { "full" } else { "half" });
    page.tell(format_args!(", {} columns", format.columns().len()));
}
