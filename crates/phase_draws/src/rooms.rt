// Room for what workers report, taken before the first draw.
ghost use Rattle.std.specs.Prelude.{◌≡◌, ◌+◌, ◌*◌, ◌<◌, ◌≤◌, None, length, replicate, IfOk};
ghost use Rattle.phase_draws.specs.Crews.{HaveRoom};

use phase_chunks::{ChunkPart, ChunkReport};
use sac_base::{Cell, Memory};
use std::alloc::Global;

/// Room for the reports of the first worker, of each further one, and of all.
#[derive(Drop)]
pub(crate) struct Rooms {
    pub(crate) mine: Vec<ChunkReport>,
    pub(crate) others: Vec<Vec<ChunkReport>>,
    pub(crate) reports: Vec<ChunkReport>,
}

/// What a phase begins with: a slot for the part of each chunk, and room for reports.
#[derive(Drop)]
pub(crate) struct Begun {
    pub(crate) slots: Vec<ChunkPart>,
    pub(crate) rooms: Rooms,
}

/// How many workers begin: as many as there may be, but no more than chunks.
pub(crate) fn team_of(most: u32, chunks: u64) -> usize
    requires { most ≤ 64 }
    ensures { (1 ≤ result) × (result ≤ 64) }
{
    (most as u64).min(chunks).max(1) as usize
}

/// Room for so many workers, each of which may draw all chunks.
pub(crate) fn rooms_for(alloc: Global, workers: usize, chunks: usize) -> Result<Rooms, Memory>
    requires some { 1 ≤ workers }
    requires few { (workers ≤ 64) × (chunks ≤ 4096) }
    ensures { IfOk result (λ rooms. HaveRoom chunks workers rooms) }
{
    let mine = Vec::with_capacity(alloc, chunks)?;
    let reports = Vec::with_capacity(alloc, workers * chunks)?;
    let mut others = Vec::with_capacity(alloc, workers)?;
    for _ in 1..workers {
        let room = Vec::with_capacity(alloc, chunks)?;
        others.push_reserved(room);
    }
    Ok(Rooms {
        mine,
        others,
        reports,
    })
}

/// The slots of chunks without parts.
pub(crate) fn no_parts(alloc: Global, chunks: usize) -> Result<Vec<ChunkPart>, Memory>
    ensures { IfOk result (λ slots. slots.items ≡ replicate chunks None) }
{
    let mut slots = Vec::with_capacity(alloc, chunks)?;
    for _ in 0..chunks {
        slots.push_reserved(None);
    }
    Ok(slots)
}

/// Three rows for each worker of a fold: for the value of its chunks, for that of the next one, and a spare one.
pub(crate) fn blank_rows(alloc: Global, workers: usize, width: usize) -> Result<Vec<Cell>, Memory>
    ensures { IfOk result (λ rows. length rows.items ≡ workers * (width + (width + width))) }
{
    let Some(len) = width
        .checked_mul(3)
        .and_then(|three| workers.checked_mul(three))
    else {
        return Err(Memory);
    };
    Ok(vec![in alloc; 0; len]?)
}
