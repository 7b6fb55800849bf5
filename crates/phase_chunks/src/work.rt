// What a worker computes, and with what.
use crate::shares::{ChunkPart, Share};
use count_table::{Phase, WorkerSeat};

/// What is computed: the cells of the positions that are shared out so, by the phase's table.
#[derive(Drop)]
pub struct CellWork<'a, C> {
    pub cells: &'a C,
    pub table: &'a Phase<ChunkPart>,
    pub share: Share,
}

/// What one worker computes cells with: its seat at the table, and a context.
pub struct CellWorker<W> {
    pub seat: Option<WorkerSeat<ChunkPart>>,
    pub context: W,
}
