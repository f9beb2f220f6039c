//! The box that asks for a mode.
ghost use Rattle.std.specs.Prelude.{◌≡◌, ◌<◌, ◌≤◌, ◌%◌, IfOk, OnOk};
ghost use Rattle.std.specs.Str.{IsUtf8};
ghost use Rattle.mc_text.specs.Permissions.{perm_text as perm_text_of};
ghost use Rattle.mc_dialogs.specs.ModeKeys.{shifted_in, mode_after, mode_lines};
ghost use Rattle.mc_dialogs.specs.ModeKeys.{mode_shut, octal_digit, octal as octal_text};
ghost use Rattle.mc_dialogs.specs.Boxes.{with_box};

use crate::frame::{Line, paint_box};
use crate::shut::{Reply, Shut};
use key_screen::{Attr, Base, Grid, Key};
use mc_text::{Kind, NoMemory, Text, perm_text};
use std::alloc::Global;
use std::marker::Model;

/// A box that asks for a mode of four octal digits.
#[derive(Debug, Drop)]
pub struct ModeBox {
    title: Text,
    mode: u16,
}

impl Model for ModeBox {
    ghost use Rattle.std.specs.Prelude.{◌<◌};
    ghost use Rattle.mc_dialogs.specs.ModeKeys.{ModeState};

    ghost Value = { ModeState };

    ghost view = { λ b. record { title = b.title; mode = b.mode } };

    ghost invariant = { λ b. b.mode < 4096 };
}

impl ModeBox {
    /// A box with this title. Of the mode the last four octal digits are kept.
    pub fn new(alloc: Global, title: &str, mode: u16) -> Result<ModeBox, NoMemory>
        ensures { IfOk result (λ asked. asked ≡ record { title = title.now; mode = mode % 4096 }) }
    {
        Ok(ModeBox {
            title: Text::from_str(alloc, title)?,
            mode: mode % 4096,
        })
    }

    /// What it answers to a key. It takes no memory.
    pub fn key(&mut self, key: Key) -> Result<Shut, NoMemory>
        ensures state { self.new ≡ mode_after self.old key }
        ensures bound { self.new.mode < 4096 }
        ensures shut { result ≡ Ok (mode_shut self.old key) }
    {
        let mode = self.mode;
        if key.meta {
            return Ok(Shut::Stay);
        }
        match key.base {
            Base::Char(digit) => {
                if '0' <= digit && digit <= '7' {
                    self.mode = shift_in(mode, digit);
                }
                Ok(Shut::Stay)
            }
            Base::Enter => Ok(Shut::Closed(Reply::Mode(mode))),
            Base::Escape => Ok(Shut::Closed(Reply::Cancel)),
            Base::F(10) => Ok(Shut::Closed(Reply::Cancel)),
            _ => Ok(Shut::Stay),
        }
    }

    /// Paints it over a screen. Where memory is wanting, a part of it may stand.
    pub fn paint(&self, alloc: Global, grid: &mut Grid) -> Result<(), NoMemory>
        ensures { OnOk result (grid.new ≡ with_box grid.old (mode_lines self.now)) }
    {
        let mut lines = Vec::new(alloc);
        lines.push(plain(self.title.copy(alloc)?))?;
        lines.push(plain(letters_of(alloc, self.mode)?))?;
        lines.push(plain(octal_of(alloc, self.mode)?))?;
        paint_box(grid, alloc, &lines)
    }
}

/// A plain line.
fn plain(text: Text) -> Line
    ensures { result ≡ record { text = text; attr = Attr.Plain } }
{
    Line {
        text,
        attr: Attr::Plain,
    }
}

/// The mode in letters, as of a file.
fn letters_of(alloc: Global, mode: u16) -> Result<Text, NoMemory>
    ensures { IfOk result (λ text. text ≡ perm_text_of Kind.File mode) }
{
    text_of(alloc, &perm_text(Kind::File, mode))
}

/// The mode in four octal digits.
fn octal_of(alloc: Global, mode: u16) -> Result<Text, NoMemory>
    ensures { IfOk result (λ text. text ≡ octal_text mode) }
{
    text_of(alloc, &digits_of(mode))
}

/// Four octal digits.
fn digits_of(mode: u16) -> [u8; 4]
    ensures { result ≡ octal_text mode }
{
    [
        digit_of(mode / 512),
        digit_of(mode / 64),
        digit_of(mode / 8),
        digit_of(mode),
    ]
}

/// The last octal digit of a number.
fn digit_of(n: u16) -> u8
    ensures { result ≡ octal_digit n }
{
    b'0' + (n % 8) as u8
}

/// A text of these bytes.
fn text_of(alloc: Global, bytes: &[u8]) -> Result<Text, NoMemory>
    requires { IsUtf8 bytes.now }
    ensures { IfOk result (λ text. text ≡ bytes.now) }
{
    match str::from_utf8(bytes) {
        Ok(text) => Text::from_str(alloc, text),
        Err(_) => unreachable!(),
    }
}

/// The mode with a digit shifted in from the right.
fn shift_in(mode: u16, digit: char) -> u16
    requires mode { mode < 4096 }
    requires from_0 { 48 ≤ digit }
    requires to_7 { digit ≤ 55 }
    ensures value { result ≡ shifted_in mode digit }
    ensures bound { result < 4096 }
{
    (mode * 8) % 4096 + (digit as u32 - 48) as u16
}
