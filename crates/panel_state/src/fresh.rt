//! What reading a folder again gives a panel.
use panel_listing::Listing;
use std::marker::Model;
use tagging::Tags;

/// What the folder held when it was read again, the tags that are kept, and the row in
/// which the cursor will stand.
#[derive(Drop)]
pub struct Fresh {
    pub listing: Listing,
    pub tags: Tags,
    pub row: usize,
}

impl Model for Fresh {
    ghost use Rattle.std.specs.FinSet as set;
    ghost use Rattle.panel_state.specs.FreshReads.{FreshRead};

    ghost Value = { FreshRead };

    ghost view = { λ f. record { listing = f.listing; tags = set.items f.tags; row = f.row } };
}
