//! What a key asked is carried out, and then the frame is drawn.
ghost use Rattle.std.specs.Prelude.{◌≡◌, false};
ghost use Rattle.session_log.specs.Told.{waits_told};
ghost use Rattle.mc_desk.specs.LiveRows.{rows_of};
ghost use Rattle.mc_desk.specs.Outputs.{FitsScreen, ShowsFrame};
ghost use Rattle.mc_desk.specs.Redrawing.{is_anew};
ghost use Rattle.mc_desk.specs.Standings.{MayCarryOut, after_deed, event_of};
ghost use Rattle.mc_ui.specs.Frames.{frame_of};

use crate::drawing::Drawing;
use crate::granting::Deed;
use crate::standing::Standing;
use crate::tag::Tag;
use crate::terminal::SessionTerminal;
use mc_ui::Ui;
use session_entries::Event;
use session_log::Log;
use std::alloc::Global;
use tree_trait::{Sink, SinkError};

/// What is written down directly after the key, and whether the frame was drawn.
#[derive(Debug, Drop)]
pub struct Carried {
    pub follows: Option<Event>,
    pub drawn: Result<(), SinkError>,
}

/// Carries out what a key asked, and then draws the frame, so that it shows the jobs as they are now.
pub fn carry_out<N: Tag, S: Sink>(
    alloc: Global,
    deed: Deed,
    drawing: Drawing,
    ui: &Ui,
    log: &Log,
    standing: &mut Standing,
    terminal: &mut SessionTerminal<N, S>,
) -> Carried
    requires may { MayCarryOut standing.old.job deed }
    requires uncut { terminal.old.put.is_cut ≡ false }
    requires size { FitsScreen terminal.old.display.grid ui.now }
    ensures done { standing.new ≡ after_deed deed standing.old }
    ensures told { result.follows ≡ event_of deed standing.old.job }
    ensures shows { ShowsFrame (is_anew drawing)
        (frame_of ui.now (rows_of standing.new.job (waits_told log.now.newest)))
        result.drawn terminal.old terminal.new }
{
    let follows = standing.carry_out(deed);
    let drawn = terminal.show(alloc, drawing, ui, &standing.job, log);
    Carried { follows, drawn }
}
