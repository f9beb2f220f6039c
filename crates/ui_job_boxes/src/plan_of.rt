//! What is planned by a typed path.
use crate::job_box::MaskedSource;
use mc_text::Text;

/// What is planned where a typed path leads.
#[derive(Drop)]
pub(crate) enum PlanOf<'a> {
    /// That these are copied or moved there.
    Carry(&'a MaskedSource),
    /// A new folder there.
    Folder,
    /// A new link there that says this.
    Link(&'a Text),
}
