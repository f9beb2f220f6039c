//! The menu, and what a key comes to in it.
ghost use Rattle.std.specs.Prelude.{◌≡◌, IfOk, OnErr, OnOk};
ghost use Rattle.ui_menu.specs.declared.stage.Stage.TheVariants as stage;
ghost use Rattle.ui_menu.specs.MenuScreens.{KeyLeads, ListLeads, IsChosen, command_of_row, new_menu};
ghost use Rattle.ui_menu.specs.MenuScreens.{begun_act, begun_stage, prompted_act, prompted_stage, with_stage};
ghost use Rattle.ui_menu.specs.Prompting.{prompt_act, prompts_after};

use crate::act::{Beginning, MenuAct, PromptAct};
use crate::beginning::begin_command;
use crate::prompts::Prompts;
use crate::stage::Stage;
use key_screen::Key;
use mc_dialogs::{ListBox, Reply, Shut};
use mc_text::{NoMemory, Texts};
use percent_macros::Context;
use std::alloc::Global;
use std::convert::AsStr;
use std::marker::Model;
use std::mem;

/// The user's menu: a box lists the titles of the shown entries, and once one is chosen the prompts of its
/// command are asked. It runs nothing: a command that is to be run is handed out, and that once.
#[derive(Drop)]
pub struct MenuMode {
    list: ListBox,
    /// The command of each row.
    commands: Texts,
    stage: Stage,
}

impl Model for MenuMode {
    ghost use Rattle.ui_menu.specs.MenuStates.{MenuScreen};

    ghost Value = { MenuScreen };

    ghost view = { λ m. record { list = m.list; commands = m.commands; stage = m.stage } };
}

impl MenuMode {
    /// A box of titles, with the command of each. It takes no memory.
    pub(crate) fn new(list: ListBox, commands: Texts) -> MenuMode
        ensures { result ≡ new_menu list commands }
    {
        MenuMode {
            list,
            commands,
            stage: Stage::Choosing,
        }
    }

    /// Works a key, between panels that hold this. Without memory all stays as it was.
    pub fn key(&mut self, alloc: Global, context: &Context, key: Key) -> Result<MenuAct, NoMemory>
        ensures leads { IfOk result (λ act. KeyLeads context.now key act self.old self.new) }
        ensures lost { OnErr result (self.new ≡ self.old) }
    {
        match mem::replace(&mut self.stage, Stage::Ended) {
            Stage::Choosing => self.key_in_list(alloc, context, key),
            Stage::Prompting(prompts) => self.key_in_prompts(alloc, prompts, key),
            Stage::Ended => Ok(MenuAct::Leaves),
        }
    }

    /// A key while an entry is to be chosen.
    fn key_in_list(
        &mut self,
        alloc: Global,
        context: &Context,
        key: Key,
    ) -> Result<MenuAct, NoMemory>
        requires ended { self.old.stage ≡ stage.Ended }
        ensures leads { IfOk result
            (λ act. ListLeads context.now key act (with_stage stage.Choosing self.old) self.new) }
        ensures lost { OnErr result (self.new ≡ with_stage stage.Choosing self.old) }
    {
        match self.list.answer_to(key) {
            Shut::Stay => {
                let _shut = self.list.key(key);
                self.stage = Stage::Choosing;
                Ok(MenuAct::Stays)
            }
            Shut::Closed(Reply::Chosen(row)) => self.choose(alloc, context, row),
            Shut::Closed(_) => Ok(MenuAct::Leaves),
        }
    }

    /// A row is chosen.
    fn choose(&mut self, alloc: Global, context: &Context, row: usize) -> Result<MenuAct, NoMemory>
        requires ended { self.old.stage ≡ stage.Ended }
        ensures leads { IfOk result (λ act. IsChosen context.now (command_of_row row self.old.commands) act
            (with_stage stage.Choosing self.old) self.new) }
        ensures lost { OnErr result (self.new ≡ with_stage stage.Choosing self.old) }
    {
        let begun = begin_command(alloc, command_in(&self.commands, row), context);
        match begun {
            Ok(begun) => Ok(self.follow(begun)),
            Err(error) => {
                self.stage = Stage::Choosing;
                Err(error)
            }
        }
    }

    /// Takes up what the chosen command came to.
    fn follow(&mut self, begun: Beginning) -> MenuAct
        requires ended { self.old.stage ≡ stage.Ended }
        ensures act { result ≡ begun_act begun }
        ensures state { self.new ≡ with_stage (begun_stage begun) self.old }
    {
        let _list = &self.list;
        match begun {
            Beginning::Runs(command) => MenuAct::Runs(command),
            Beginning::Asks(prompts) => {
                self.stage = Stage::Prompting(prompts);
                MenuAct::Stays
            }
            Beginning::Refused(why) => {
                self.stage = Stage::Choosing;
                MenuAct::Refused(why)
            }
        }
    }

    /// A key while prompts are asked.
    fn key_in_prompts(
        &mut self,
        alloc: Global,
        prompts: Prompts,
        key: Key,
    ) -> Result<MenuAct, NoMemory>
        requires ended { self.old.stage ≡ stage.Ended }
        ensures act { IfOk result (λ act. act ≡ prompted_act (prompt_act prompts key)) }
        ensures state { OnOk result (self.new
            ≡ with_stage (prompted_stage (prompt_act prompts key) (prompts_after prompts key)) self.old) }
        ensures lost { OnErr result (self.new ≡ with_stage (stage.Prompting prompts) self.old) }
    {
        let _list = &self.list;
        let mut prompts = prompts;
        let act = prompts.key(alloc, key);
        match act {
            Ok(PromptAct::Stays) => {
                self.stage = Stage::Prompting(prompts);
                Ok(MenuAct::Stays)
            }
            Ok(PromptAct::Runs(command)) => Ok(MenuAct::Runs(command)),
            Ok(PromptAct::Cancels) => Ok(MenuAct::Leaves),
            Err(error) => {
                self.stage = Stage::Prompting(prompts);
                Err(error)
            }
        }
    }

    /// What is listed.
    pub(crate) fn list(&self) -> &ListBox
        ensures { result.now ≡ self.now.list }
    {
        &self.list
    }

    /// What the menu is at.
    pub fn stage(&self) -> &Stage
        ensures { result.now ≡ self.now.stage }
    {
        &self.stage
    }
}

/// The command of a row.
fn command_in(commands: &Texts, row: usize) -> &str
    ensures { result.now ≡ command_of_row row commands.now }
{
    match commands.as_slice().get(row) {
        Some(command) => command.as_str(),
        None => "",
    }
}
