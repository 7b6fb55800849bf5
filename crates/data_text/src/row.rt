ghost use Rattle.std.specs.Prelude.{◌≡◌, [], OnOk, Some, option_map};
ghost use Rattle.data_text.specs.Rows.{keep as kept};

use sac_base::{Cell, Memory};
use std::alloc::Global;
use std::marker::Model;

/// The numbers of a row that is read: none once one was no cell, and at most one more than `most`.
#[derive(Drop)]
pub(crate) struct Row {
    cells: Vec<Cell>,
    fits: bool,
}

impl Model for Row {
    ghost use Rattle.std.specs.Prelude.{ℤ, List, Option, Some, None, if◌then◌else◌};

    ghost Value = { Option (List ℤ) };

    ghost view = { λ row. if row.fits then Some row.cells.items else None };
}

impl Row {
    pub(crate) fn new(alloc: Global) -> Self
        ensures { result ≡ Some [] }
    {
        Row {
            cells: Vec::new(alloc),
            fits: true,
        }
    }

    /// One number more, `None` for one that is no cell.
    pub(crate) fn keep(&mut self, most: usize, number: Option<Cell>) -> Result<(), Memory>
        ensures { OnOk result (self.new ≡ kept most self.old number) }
    {
        if !self.fits {
            return Ok(());
        }
        let Some(cell) = number else {
            self.fits = false;
            return Ok(());
        };
        if self.cells.len() <= most {
            self.cells.push(cell)?;
        }
        Ok(())
    }

    /// The numbers, if each was a cell.
    pub(crate) fn into_cells(self) -> Option<Vec<Cell>>
        ensures { option_map (λ cells. cells.items) result ≡ self }
    {
        if self.fits { Some(self.cells) } else { None }
    }
}
