//! Keys while a line asks. It was taken out, and is put back where it stays.
ghost use Rattle.std.specs.Prelude.{◌≡◌, false, None, Some, IfOk, OnOk, OnErr};
ghost use Rattle.ui_words.specs.BoxKeys.{line_reply as line_reply_of};
ghost use Rattle.mc_dialogs.specs.InputKeys.{input_after, input_shut};
ghost use Rattle.tagging.specs.TypedPatterns.{pattern_in};
ghost use Rattle.ui_find.specs.Questions.{asks};
ghost use Rattle.ui_find.specs.FindScreens.{AnswerLeads, LineLeads, NamesLead, ReadsTree};
ghost use Rattle.ui_find.specs.FindScreens.{StartLeads, begins, looks_by, with_line};
ghost use Rattle.ui_find.specs.Listings.{IsBegun};

use super::FindMode;
use crate::act::{FindAct, FindRefusal};
use crate::asking::{Asked, Asking, content_line, names_line, type_in};
use crate::starting::{search_below, start_at};
use key_screen::Key;
use mc_dialogs::InputLine;
use mc_text::{NoMemory, Path, Text};
use resolving::ResolveError;
use std::alloc::Global;
use std::convert::AsStr;
use tagging::{Pattern, pattern_in};
use tree_trait::ReadTree;
use ui_words::LineReply;

impl FindMode {
    /// A key while a line asks.
    pub(super) fn key_in_line<T: ReadTree>(
        &mut self,
        alloc: Global,
        tree: &mut T,
        asking: Asking,
        key: Key,
    ) -> Result<FindAct, NoMemory>
        requires clear { self.old.asking ≡ None }
        ensures leads { IfOk result (λ act.
            LineLeads (line_reply_of (input_shut asking.line key)) asking.asked
            (input_after asking.line key) (T.contents tree.old) act
            (with_line (Some asking) self.old) self.new) }
        ensures still { looks_by (line_reply_of (input_shut asking.line key)) asking.asked ≡ false
            → tree.new ≡ tree.old }
        ensures lost { OnErr result (self.new ≡ with_line (Some asking) self.old) }
        ensures reads { ReadsTree result (T.contents tree.old) (T.contents tree.new) (T.fault_count tree.old)
            (T.fault_count tree.new) }
    {
        let _folder = &self.folder;
        let Asking { asked, line } = asking;
        let mut line = line;
        let reply = type_in(alloc, &mut line, key);
        match reply {
            Ok(LineReply::Stays) => {
                self.asking = Some(Asking { asked, line });
                Ok(FindAct::Stays)
            }
            Ok(LineReply::Shuts) => Ok(FindAct::Leaves),
            Ok(LineReply::Takes(text)) => self.answer(alloc, tree, asked, line, text),
            Err(error) => {
                self.asking = Some(Asking { asked, line });
                Err(error)
            }
        }
    }

    /// Follows an answer: each question is a row.
    fn answer<T: ReadTree>(
        &mut self,
        alloc: Global,
        tree: &mut T,
        asked: Asked,
        line: InputLine,
        text: Text,
    ) -> Result<FindAct, NoMemory>
        requires clear { self.old.asking ≡ None }
        ensures leads { IfOk result (λ act. AnswerLeads asked text (T.contents tree.old) act
            (with_line (Some (record { asked = asked; line = line })) self.old) self.new) }
        ensures still { looks_by (LineReply.Takes text) asked ≡ false → tree.new ≡ tree.old }
        ensures lost { OnErr result
            (self.new ≡ with_line (Some (record { asked = asked; line = line })) self.old) }
        ensures reads { ReadsTree result (T.contents tree.old) (T.contents tree.new) (T.fault_count tree.old)
            (T.fault_count tree.new) }
    {
        match asked {
            Asked::Start => self.answer_start(alloc, tree, line, text),
            Asked::Names(start) => self.answer_names(alloc, start, line, text),
            Asked::Content(start, name) => Ok(self.begin(alloc, start, name, text)),
        }
    }

    /// The start was answered.
    fn answer_start<T: ReadTree>(
        &mut self,
        alloc: Global,
        tree: &mut T,
        line: InputLine,
        text: Text,
    ) -> Result<FindAct, NoMemory>
        requires clear { self.old.asking ≡ None }
        ensures leads { IfOk result (λ act. StartLeads text (T.contents tree.old) act
            (with_line (Some (record { asked = Asked.Start; line = line })) self.old) self.new) }
        ensures lost { OnErr result
            (self.new ≡ with_line (Some (record { asked = Asked.Start; line = line })) self.old) }
        ensures reads { ReadsTree result (T.contents tree.old) (T.contents tree.new) (T.fault_count tree.old)
            (T.fault_count tree.new) }
    {
        let start = start_at(alloc, tree, &self.folder, &self.home, text.as_str());
        match start {
            Ok(start) => self.ask_names(alloc, start, line),
            Err(ResolveError::Memory) => {
                let asked = Asked::Start;
                self.asking = Some(Asking { asked, line });
                Err(NoMemory)
            }
            Err(error) => {
                let asked = Asked::Start;
                self.asking = Some(Asking { asked, line });
                Ok(FindAct::Refused(FindRefusal::NoWay(error)))
            }
        }
    }

    /// Asks for names in place of the start, or leaves this asked for where memory is wanting.
    fn ask_names(
        &mut self,
        alloc: Global,
        start: Path,
        line: InputLine,
    ) -> Result<FindAct, NoMemory>
        requires clear { self.old.asking ≡ None }
        ensures act { IfOk result (λ act. act ≡ FindAct.Stays) }
        ensures asks { OnOk result (self.new ≡ with_line (Some (asks (Asked.Names start))) self.old) }
        ensures lost { OnErr result
            (self.new ≡ with_line (Some (record { asked = Asked.Start; line = line })) self.old) }
    {
        let _folder = &self.folder;
        let next = names_line(alloc);
        match next {
            Ok(next) => {
                let asked = Asked::Names(start);
                self.asking = Some(Asking { asked, line: next });
                Ok(FindAct::Stays)
            }
            Err(error) => {
                let asked = Asked::Start;
                self.asking = Some(Asking { asked, line });
                Err(error)
            }
        }
    }

    /// The names were answered.
    fn answer_names(
        &mut self,
        alloc: Global,
        start: Path,
        line: InputLine,
        text: Text,
    ) -> Result<FindAct, NoMemory>
        requires clear { self.old.asking ≡ None }
        ensures leads { IfOk result (λ act. NamesLead start (pattern_in self.old.kind text) act
            (with_line (Some (record { asked = Asked.Names start; line = line })) self.old) self.new) }
        ensures lost { OnErr result
            (self.new ≡ with_line (Some (record { asked = Asked.Names start; line = line })) self.old) }
    {
        let _folder = &self.folder;
        let name = pattern_in(alloc, self.kind, text.as_str());
        match name {
            Ok(Some(name)) => self.ask_content(alloc, start, name, line),
            Ok(None) => {
                let asked = Asked::Names(start);
                self.asking = Some(Asking { asked, line });
                Ok(FindAct::Refused(FindRefusal::NoPattern))
            }
            Err(error) => {
                let asked = Asked::Names(start);
                self.asking = Some(Asking { asked, line });
                Err(error)
            }
        }
    }

    /// Asks for a content in place of the names, or leaves these asked for where memory is wanting.
    fn ask_content(
        &mut self,
        alloc: Global,
        start: Path,
        name: Pattern,
        line: InputLine,
    ) -> Result<FindAct, NoMemory>
        requires clear { self.old.asking ≡ None }
        ensures leads { IfOk result (λ act. NamesLead start (Some name) act
            (with_line (Some (record { asked = Asked.Names start; line = line })) self.old) self.new) }
        ensures lost { OnErr result
            (self.new ≡ with_line (Some (record { asked = Asked.Names start; line = line })) self.old) }
    {
        let _folder = &self.folder;
        let next = content_line(alloc);
        match next {
            Ok(next) => {
                let asked = Asked::Content(start, name);
                self.asking = Some(Asking { asked, line: next });
                Ok(FindAct::Stays)
            }
            Err(error) => {
                let asked = Asked::Names(start);
                self.asking = Some(Asking { asked, line });
                Err(error)
            }
        }
    }

    /// The content was answered: the search begins.
    fn begin(&mut self, alloc: Global, start: Path, name: Pattern, content: Text) -> FindAct
        requires clear { self.old.asking ≡ None }
        ensures act { result ≡ FindAct.Stays }
        ensures begun { IsBegun start name content self.old.hidden self.new.listing }
        ensures rest { self.new ≡ begins self.new.listing self.old }
    {
        let _folder = &self.folder;
        self.listing = search_below(alloc, start, name, content, self.hidden);
        FindAct::Stays
    }
}
