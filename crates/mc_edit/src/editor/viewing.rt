//! What is shown of the text.
ghost use Rattle.std.specs.Prelude.{◌≡◌, ◌-◌, ◌≤◌, IfOk};
ghost use Rattle.mc_edit.specs.Marked.{marked_columns};
ghost use Rattle.mc_edit.specs.Pages.{page_rows, page_column, lines_above};

use super::Editor;
use crate::marked::{MarkedColumns, Span, marked_lines};
use crate::moves::column_at;
use crate::pages::{rows_from, top_of};
use mc_text::{NoMemory, Rows};
use std::alloc::Global;
use text_units::Sight;

/// Rows of a text, and the row and the column of the point on them.
#[derive(Debug, Drop)]
pub struct EditView {
    pub rows: Rows,
    pub row: u16,
    pub column: u16,
}

impl Editor {
    /// The page of a screen of so many lines and columns, two lines of which aren't the text's.
    #[tactic(auto, unfolding(crate::specs::Edits::largest_text))]
    pub fn view(&self, alloc: Global, lines: u16, columns: u16) -> Result<EditView, NoMemory>
        requires lines { 3 ≤ lines }
        requires columns { 1 ≤ columns }
        ensures rows { IfOk result (λ view. view.rows ≡ page_rows lines columns self.now.text) }
        ensures row { IfOk result (λ view. view.row
            ≡ lines_above self.now.text.bytes (lines - 3) self.now.text.point) }
        ensures column { IfOk result (λ view. view.column ≡ page_column columns self.now.text) }
    {
        let wide = usize::from(columns);
        let column = column_at(alloc, &self.text, self.point)?;
        let left = (column + 1).saturating_sub(wide);
        let sight = Sight {
            left,
            right: left + wide,
        };
        let top = top_of(&self.text, lines - 3, self.point);
        let rows = rows_from(alloc, &self.text, sight, usize::from(lines - 2), top.start)?;
        Ok(EditView {
            rows,
            row: top.above,
            column: (column - left) as u16,
        })
    }

    /// The columns of each row of that page that the block has. Without a block there are no rows.
    #[tactic(auto, unfolding(crate::specs::Edits::largest_text))]
    pub fn marked_columns(
        &self,
        alloc: Global,
        lines: u16,
        columns: u16,
    ) -> Result<Vec<MarkedColumns>, NoMemory>
        requires lines { 3 ≤ lines }
        requires columns { 1 ≤ columns }
        ensures { IfOk result (λ marked. marked.items ≡ marked_columns lines columns self.now) }
    {
        let Some((start, end)) = self.block.span(self.point) else {
            return Ok(Vec::new(alloc));
        };
        let wide = usize::from(columns);
        let column = column_at(alloc, &self.text, self.point)?;
        let left = (column + 1).saturating_sub(wide);
        let sight = Sight {
            left,
            right: left + wide,
        };
        let span = Span { start, end };
        let top = top_of(&self.text, lines - 3, self.point);
        marked_lines(
            alloc,
            &self.text,
            sight,
            span,
            usize::from(lines - 2),
            top.start,
        )
    }
}
