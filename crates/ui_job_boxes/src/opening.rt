//! The boxes as they open.
ghost use Rattle.std.specs.Prelude.{◌≡◌, IfOk};
ghost use Rattle.ui_words.specs.BoxLines.{folder_line};
ghost use Rattle.ui_job_boxes.specs.JobBoxes.{FolderBox, LinkTextBox, seen_job_box};
ghost use Rattle.ui_job_boxes.specs.Openings.{box_of, link_asked};

use crate::job_box::JobBox;
use mc_dialogs::InputLine;
use mc_text::NoMemory;
use panel_state::Panel;
use std::alloc::Global;
use std::convert::AsStr;
use ui_plans::Opens;
use ui_words::{Chosen, folder_line, link_text_line, mask_line, mode_box, thing_text};

impl JobBox {
    /// The box on things, of which the first has this mode, where a mode is asked for.
    pub fn open(alloc: Global, opens: Opens, chosen: Chosen, mode: u16) -> Result<JobBox, NoMemory>
        ensures { IfOk result (λ asks. seen_job_box asks ≡ box_of opens chosen.paths mode) }
    {
        match opens {
            Opens::Delete => Ok(JobBox::Delete(chosen)),
            Opens::SourceMask(carry) => {
                let line = mask_line(alloc, chosen.paths.as_slice())?;
                Ok(JobBox::SourceMask(carry, chosen, line))
            }
            Opens::Mode => Ok(JobBox::Mode(chosen, mode_box(alloc, mode)?)),
        }
    }

    /// The box that asks for a new folder.
    pub fn ask_folder(alloc: Global) -> Result<JobBox, NoMemory>
        ensures { IfOk result (λ asks. seen_job_box asks ≡ FolderBox folder_line) }
    {
        Ok(JobBox::MakeFolder(folder_line(alloc)?))
    }

    /// The box that asks, in this panel, what a new link is to say.
    pub fn ask_link(alloc: Global, panel: &Panel) -> Result<JobBox, NoMemory>
        ensures { IfOk result (λ asks. seen_job_box asks ≡ LinkTextBox (link_asked panel.now)) }
    {
        Ok(JobBox::LinkText(first_line(alloc, panel)?))
    }
}

/// The line that asks what a link is to say, in a panel: at first the path of the thing under the
/// cursor, or that of the folder.
fn first_line(alloc: Global, panel: &Panel) -> Result<InputLine, NoMemory>
    ensures { IfOk result (λ line. line ≡ link_asked panel.now) }
{
    let text = match panel.current_name() {
        Some(name) => thing_text(alloc, panel.folder(), name)?,
        None => panel.folder().text(alloc)?,
    };
    link_text_line(alloc, text.as_str())
}
