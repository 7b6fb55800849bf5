// Who computes the cells of a phase, and what for.
use count_table::FrameSeat;
use phase_chunks::{CellWork, CellWorker, ChunkPart, ChunkReport};

/// What the workers of a phase have in common: where they run, who is told of each chunk, and what they compute.
#[derive(Drop)]
pub(crate) struct Team<'a, C, G, R> {
    pub(crate) rt: &'a R,
    pub(crate) gate: &'a G,
    pub(crate) work: CellWork<'a, C>,
}

/// One worker of a team, with the reports of the chunks that it drew.
pub(crate) struct Member<W> {
    pub(crate) number: u32,
    pub(crate) worker: CellWorker<W>,
    pub(crate) reports: Vec<ChunkReport>,
}

/// What the workers of a team come back to: the frame of their seats, how many have begun, room for what each further one
/// reports, and the reports of those that are back.
pub(crate) struct Roster {
    pub(crate) frame: FrameSeat<ChunkPart>,
    pub(crate) begun: u32,
    pub(crate) rooms: Vec<Vec<ChunkReport>>,
    pub(crate) reports: Vec<ChunkReport>,
}
