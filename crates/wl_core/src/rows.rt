//! Rows of cells in one buffer, so that a step takes no memory.

ghost use Rattle.std.specs.Prelude.{◌≡◌, ℕ, ◌+◌, ◌*◌, ◌<◌, ◌≤◌, length, IfOk, ℤ, List};
ghost use Rattle.sac_base.specs.Verdict.{joined};
ghost use Rattle.wl_core.specs.Machine.{combine, listed};
ghost use Rattle.wl_core.specs.Rows.{row_of, PutsRow};

use sac_base::{Cell, Memory, Op, apply2};
use std::alloc::Global;
use std::marker::Model;

/// Rows of one width.
#[derive(Debug, Drop)]
pub struct Rows {
    width: usize,
    count: usize,
    cells: Vec<Cell>,
}

impl Model for Rows {
    ghost use Rattle.std.specs.Prelude.{◌≡◌, ◌*◌, length};
    ghost use Rattle.wl_core.specs.Rows.{RowsValue};

    ghost Value = { RowsValue };

    ghost view = { λ rows. record { width = rows.width; count = rows.count; cells = rows.cells.items } };

    ghost invariant = { λ rows. length rows.cells.items ≡ rows.count * rows.width };
}

impl Rows {
    pub fn new(alloc: Global, count: usize, width: usize) -> Result<Rows, Memory>
        ensures { IfOk result (λ rows. (rows.width ≡ width) × (rows.count ≡ count)) }
    {
        let Some(len) = count.checked_mul(width) else {
            return Err(Memory);
        };
        let cells = vec![in alloc; 0; len]?;
        Ok(Rows {
            width,
            count,
            cells,
        })
    }

    /// A row.
    pub fn row(&self, index: usize) -> &[Cell]
        requires { index < self.now.count }
        ensures cells { result.now ≡ row_of self.now index }
        ensures width { length result.now ≡ self.now.width }
    {
        let start = index * self.width;
        &self.cells[start..start + self.width]
    }

    /// Writes a row.
    pub fn put(&mut self, index: usize, value: &[Cell])
        requires index { index < self.old.count }
        requires width { length value.now ≡ self.old.width }
        ensures { PutsRow self.old self.new index value.now }
    {
        let start = index * self.width;
        self.cells[start..start + self.width].copy_from_slice(value);
    }

    /// Combines a row with another value, element by element.
    pub fn combine(&mut self, index: usize, op: Op, value: &[Cell])
        requires index { index < self.old.count }
        requires width { length value.now ≡ self.old.width }
        ensures { PutsRow self.old self.new index (combine op (row_of self.old index) value.now) }
    {
        let start = index * self.width;
        combine_into(op, &mut self.cells[start..start + self.width], value);
    }

    /// All rows, one after another.
    pub fn joined(&self) -> Result<Vec<Cell>, Memory>
        ensures { IfOk result (λ cells. cells.items ≡ joined (listed (row_of self.now) self.now.count)) }
    {
        Ok(self.cells.clone()?)
    }
}

/// Combines each cell with the one of the value.
pub fn combine_into(op: Op, into: &mut [Cell], value: &[Cell])
    requires { length value.now ≡ length into.old }
    ensures { into.new ≡ combine op into.old value.now }
{
    for i in 0..into.len() {
        into[i] = apply2(op, into[i], value[i]).unwrap_or(0);
    }
}
