ghost use Rattle.std.specs.Prelude.{◌≡◌, ◌<◌, length, slice_get, Some};
ghost use Rattle.wl_core.specs.Machine.{IsSetup, chunks, end, first};
ghost use Rattle.wl_core.specs.Reading.{setup_of, cell_of, IsWidth};

use sac_base::{Base, Cell, Fault, Op};

/// What the cell of a position comes to.
#[derive(Debug, Drop)]
pub enum CellResult {
    Value(Vec<Cell>),
    Faults(Fault),
    /// No generator of a fold holds the index.
    NotHeld,
}

/// What a phase makes of its cells: it stores them, or it combines them by an operation on values of a base.
#[derive(Clone, Copy, Debug, PartialEq, Eq)]
pub enum Job {
    Write,
    Fold(Base, Op),
}

/// A phase: the cells of its positions, how many of them make a chunk, how many workers there are, what is made of the cells, and the count of each buffer.
#[derive(Debug, Drop)]
pub struct Setup {
    pub cells: Vec<CellResult>,
    pub cuts_size: u64,
    pub workers: u32,
    pub job: Job,
    pub counts: Vec<u64>,
}

/// The cell of a position.
pub fn cell(setup: &Setup, position: usize) -> &CellResult
    requires { position < length setup.now.cells.items }
    ensures { slice_get (setup_of setup.now).cells position ≡ Some (cell_of result.now) }
{
    &setup.cells[position]
}

/// How many chunks the positions make.
pub fn chunk_count(setup: &Setup) -> usize
    requires { IsSetup (setup_of setup.now) }
    ensures { result ≡ chunks (setup_of setup.now) }
{
    setup.cells.len().div_ceil(setup.cuts_size as usize)
}

/// The first position of a chunk.
pub fn chunk_start(setup: &Setup, chunk: usize) -> usize
    requires setup { IsSetup (setup_of setup.now) }
    requires chunk { chunk < chunks (setup_of setup.now) }
    ensures { result ≡ first (setup_of setup.now) chunk }
{
    chunk * setup.cuts_size as usize
}

/// The position behind a chunk.
pub fn chunk_end(setup: &Setup, chunk: usize) -> usize
    requires setup { IsSetup (setup_of setup.now) }
    requires chunk { chunk < chunks (setup_of setup.now) }
    ensures { result ≡ end (setup_of setup.now) chunk }
{
    chunk_start(setup, chunk)
        .saturating_add(setup.cuts_size as usize)
        .min(setup.cells.len())
}

/// The length that all values have, or 0 where there is none.
pub fn value_width(setup: &Setup) -> usize
    ensures { IsWidth (setup_of setup.now).cells result }
{
    for cell in &setup.cells {
        if let CellResult::Value(value) = cell {
            return value.len();
        }
    }
    0
}
