//! What a key comes to in a box.
ghost use Rattle.std.specs.Prelude.{◌≡◌, false, OnErr, OnOk, IfOk};
ghost use Rattle.ui_plans.specs.Reading.{ReadsTree};
ghost use Rattle.ui_job_boxes.specs.JobBoxes.{seen_job_box, seen_around};
ghost use Rattle.ui_job_boxes.specs.Replies.{BoxLeads, IsAllowed, box_after, reply_refusals, stays};

use crate::answering::key_in_answer;
use crate::deleting::key_in_delete;
use crate::job_box::{JobBox, JobReply, Surroundings};
use crate::lines::{key_in_link_text, key_in_mask};
use crate::plan_of::PlanOf;
use crate::planning::key_in_path;
use crate::setting::key_in_mode;
use key_screen::Key;
use mc_text::NoMemory;
use std::alloc::Global;
use tree_trait::ReadTree;

impl JobBox {
    /// What it comes to by a key. Unless it stays it is as it was, as it is where memory is wanting. It
    /// takes the time of its paths and texts; a typed path is looked at name by name.
    pub fn key<T: ReadTree>(
        &mut self,
        alloc: Global,
        tree: &mut T,
        around: &Surroundings<'_>,
        key: Key,
    ) -> Result<JobReply, NoMemory>
        ensures leads { IfOk result
            (BoxLeads (seen_job_box self.old) (T.contents tree.old) (seen_around around.now) key) }
        ensures state { OnOk result (seen_job_box self.new ≡ box_after (seen_job_box self.old) key) }
        ensures kept { IfOk result (λ reply. stays reply ≡ false → self.new ≡ self.old) }
        ensures lost { OnErr result (self.new ≡ self.old) }
        ensures allowed { IfOk result (IsAllowed around.now.rows.now) }
        ensures reads { ReadsTree reply_refusals result (T.contents tree.old) (T.contents tree.new)
            (T.fault_count tree.old) (T.fault_count tree.new) }
    {
        match self {
            JobBox::Delete(chosen) => key_in_delete(alloc, around.rows, chosen, key),
            JobBox::SourceMask(carry, chosen, line) => {
                key_in_mask(alloc, around.other, *carry, chosen, line, key)
            }
            JobBox::CarryTo(source, line) => {
                key_in_path(alloc, tree, around, &PlanOf::Carry(source), line, key)
            }
            JobBox::MakeFolder(line) => {
                key_in_path(alloc, tree, around, &PlanOf::Folder, line, key)
            }
            JobBox::LinkText(line) => key_in_link_text(alloc, line, key),
            JobBox::LinkName(text, line) => {
                key_in_path(alloc, tree, around, &PlanOf::Link(text), line, key)
            }
            JobBox::Mode(chosen, asked) => key_in_mode(alloc, around.rows, chosen, asked, key),
            JobBox::Answer(waits) => Ok(key_in_answer(around.rows, waits, key)),
        }
    }
}
