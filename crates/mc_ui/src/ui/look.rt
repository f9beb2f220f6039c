//! Looks: what the screen takes up of what the live jobs did.
ghost use Rattle.std.specs.Prelude.{◌≡◌, List, None, OnErr, OnOk, IfOk};
ghost use Rattle.std.specs.Option.{option_map};
ghost use Rattle.panel_state.specs.Rereadings.{refusal_in};
ghost use Rattle.panel_pair.specs.Looks.{IsRereadOf, LooksAgain as PanelsLookAgain, TakesReread, unread_of};
ghost use Rattle.session_entries.specs.declared.refusal.Refusal.{Refusal as RefusalType};
ghost use Rattle.mc_ui.specs.Looks.{LooksAgain, ReadsAgain, shown_waits as waits_in, told_unread};
ghost use Rattle.ui_plans.specs.Reading.{ReadsTree};
ghost use Rattle.mc_ui.specs.Boxes.{first_refusal, with_news, with_refusal, with_waits};
ghost use Rattle.mc_ui.specs.Screens.{HasSameSize, LookLeads, page_of, with_panels, with_told};

use super::Ui;
use crate::dialog::Dialog;
use job_reports::{JobRows, Waits};
use mc_text::NoMemory;
use panel_pair::Reread;
use panel_state::Attempt;
use session_entries::{Refusal, Refusals};
use std::alloc::Global;
use tree_trait::ReadTree;
use ui_job_boxes::JobBox;
use ui_words::Message;

impl Ui {
    /// Takes up what the live jobs did, at a second of the clock. After a job's end, which `has_unseen_end`
    /// says, each panel is read again. A question or a trouble gets its box; what was refused, or the news of
    /// that end, a message.
    /// It takes a look for each child of the folders that are read.
    pub fn look<T: ReadTree>(
        &mut self,
        alloc: Global,
        tree: &mut T,
        rows: &JobRows,
        now: u64,
        has_unseen_end: bool,
        news: Option<Message>,
    ) -> Result<Refusals, NoMemory>
        ensures leads { IfOk result (λ refusals.
            LookLeads (T.contents tree.old) rows.now now has_unseen_end news refusals self.old self.new) }
        ensures second { OnOk result (self.new.second ≡ now) }
        ensures size { HasSameSize self.old self.new }
        ensures settled { self.new.planned ≡ None }
        ensures lost { OnErr result (self.new ≡ self.old) }
        ensures reads { ReadsTree (λ (refusals : List RefusalType). refusals) result (T.contents tree.old)
            (T.contents tree.new)
            (T.fault_count tree.old) (T.fault_count tree.new) }
    {
        let _lines = &self.lines;
        let waits = shown_waits(alloc, rows)?;
        let refusals = self.read_if_due(alloc, tree, has_unseen_end)?;
        self.show(waits);
        self.tell_news(news);
        self.set_second(now);
        Ok(refusals)
    }

    /// Reads the panels again, if a job has ended that no look has taken up.
    fn read_if_due<T: ReadTree>(
        &mut self,
        alloc: Global,
        tree: &mut T,
        has_unseen_end: bool,
    ) -> Result<Refusals, NoMemory>
        ensures panels { IfOk result (λ refusals. LooksAgain (T.contents tree.old) has_unseen_end
            (page_of self.old) refusals self.old.panels self.new.panels) }
        ensures rest { IfOk result (λ refusals.
            self.new ≡ with_told refusals (with_panels self.new.panels self.old)) }
        ensures lost { OnErr result (self.new ≡ self.old) }
        ensures reads { ReadsTree (λ (refusals : List RefusalType). refusals) result (T.contents tree.old)
            (T.contents tree.new)
            (T.fault_count tree.old) (T.fault_count tree.new) }
    {
        let _dialog = &self.dialog;
        if !has_unseen_end {
            return Ok(Refusals(Vec::new(alloc)));
        }
        self.read_again(alloc, tree)
    }

    /// Reads the panels again. What is told of it finds its memory before they take what was read.
    fn read_again<T: ReadTree>(&mut self, alloc: Global, tree: &mut T) -> Result<Refusals, NoMemory>
        ensures panels { IfOk result (λ refusals.
            ReadsAgain (T.contents tree.old) (page_of self.old) refusals self.old.panels self.new.panels) }
        ensures rest { IfOk result (λ refusals.
            self.new ≡ with_told refusals (with_panels self.new.panels self.old)) }
        ensures lost { OnErr result (self.new ≡ self.old) }
        ensures reads { ReadsTree (λ (refusals : List RefusalType). refusals) result (T.contents tree.old)
            (T.contents tree.new)
            (T.fault_count tree.old) (T.fault_count tree.new) }
    {
        let _dialog = &self.dialog;
        let reread = self.panels().read_both(alloc, tree)?;
        let refusals = refusals_of(alloc, &reread)?;
        let first = first_of(alloc, &refusals)?;
        self.take(reread);
        self.tell_first(first);
        Ok(refusals)
    }

    /// Gives the panels what was read for them.
    fn take(&mut self, reread: Reread)
        requires read { IsRereadOf self.old.panels reread }
        ensures panels { PanelsLookAgain (page_of self.old) (unread_of reread) self.old.panels
            self.new.panels }
        ensures shows { TakesReread reread self.old.panels self.new.panels }
        ensures rest { self.new ≡ with_panels self.new.panels self.old }
    {
        let _dialog = &self.dialog;
        let page = self.page();
        self.panels.take(page, reread);
    }

    /// Puts the box over the panels that tells what a job waits with.
    fn show(&mut self, waits: Option<Waits>)
        ensures { self.new ≡ record self.old { over = with_waits waits self.old.over } }
    {
        if let Some(waits) = waits {
            self.show_box(Dialog::Job(JobBox::Answer(waits)));
        }
    }

    /// Puts up the message of a refusal.
    fn tell_first(&mut self, refusal: Option<Refusal>)
        ensures { self.new ≡ record self.old { message = with_refusal refusal self.old.message } }
    {
        if let Some(refusal) = refusal {
            self.message = Some(Message::Refused(refusal));
        }
    }

    /// Puts up the message of a job's end.
    fn tell_news(&mut self, news: Option<Message>)
        ensures { self.new ≡ record self.old { message = with_news news self.old.message } }
    {
        if let Some(news) = news {
            self.message = Some(news);
        }
    }
}

/// What the live job waits with.
fn shown_waits(alloc: Global, rows: &JobRows) -> Result<Option<Waits>, NoMemory>
    ensures { IfOk result (λ waits. waits ≡ waits_in rows.now) }
{
    match rows.0.as_slice() {
        [] => Ok(None),
        [row, ..] => row.waits(alloc),
    }
}

/// What was refused to reading both folders, the left one first.
fn refusals_of(alloc: Global, reread: &Reread) -> Result<Refusals, NoMemory>
    ensures { IfOk result (λ refusals. refusals ≡ told_unread (unread_of reread.now)) }
{
    let mut refusals = Vec::new(alloc);
    if let Some(refusal) = refusal_of(alloc, &reread.left)? {
        refusals.push(refusal)?;
    }
    if let Some(refusal) = refusal_of(alloc, &reread.right)? {
        refusals.push(refusal)?;
    }
    Ok(Refusals(refusals))
}

/// What was refused to reading a folder, if it was.
fn refusal_of(alloc: Global, attempt: &Attempt) -> Result<Option<Refusal>, NoMemory>
    ensures { IfOk result (λ refusal. refusal ≡ option_map Refusal.Resolve (refusal_in attempt.now)) }
{
    match attempt {
        Attempt::Read(_) => Ok(None),
        Attempt::Refused(error) => Ok(Some(Refusal::resolve(alloc, error)?)),
    }
}

/// The first of some refusals once more.
fn first_of(alloc: Global, refusals: &Refusals) -> Result<Option<Refusal>, NoMemory>
    ensures { IfOk result (λ first. first ≡ first_refusal refusals.now) }
{
    match refusals.0.as_slice() {
        [] => Ok(None),
        [first, ..] => Ok(Some(first.copy(alloc)?)),
    }
}
