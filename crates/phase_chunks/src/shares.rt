// How the positions of a phase are shared out.
ghost use Rattle.std.specs.Prelude.{◌≡◌, ◌-◌, ◌*◌, ◌<◌, min};

use buffer_parts::Part;
use chunk_reports::Report;
use sac_base::Cell;
use wl_core::Job;

/// What a phase's table has for a chunk: the part of the result's buffer that the chunk fills. A fold has none.
pub type ChunkPart = Option<Part<Cell>>;

/// What a worker tells of a chunk that it drew.
pub type ChunkReport = Report<ChunkPart>;

/// What is made of the cells, how many elements a cell has, how many positions there are, and how many a chunk has.
#[derive(Clone, Copy, Debug)]
pub struct Share {
    pub job: Job,
    pub width: usize,
    pub positions: usize,
    pub size: usize,
}

/// The positions of a chunk.
#[derive(Clone, Copy, Debug)]
pub struct Stretch {
    pub start: usize,
    pub count: usize,
}

/// The positions of the chunk with this number.
pub fn stretch_of(share: Share, chunk: u64) -> Stretch
    requires within { chunk * share.size < share.positions }
    ensures { (result.start ≡ chunk * share.size) × (result.count ≡ min share.size (share.positions - chunk * share.size)) }
{
    let start = chunk as usize * share.size;
    Stretch {
        start,
        count: share.size.min(share.positions - start),
    }
}
