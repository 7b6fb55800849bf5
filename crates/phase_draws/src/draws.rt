// The chunks that a seat draws.
ghost use Rattle.std.specs.Prelude.{◌≡◌, ℕ, ◌<◌, ◌++◌, [], ◌∷◌, length, slice_get, false, true, Some, MatchOption};
ghost use Rattle.count_table.specs.Views.{times};
ghost use Rattle.phase_chunks.specs.Seats.{IsFresh};
ghost use Rattle.phase_draws.specs.Crews.{IsGoing, drawn_by};

use count_table::{Phase, WorkerSeat};
use phase_chunks::ChunkPart;

/// A chunk that was drawn, and its part.
#[derive(Drop)]
pub(crate) struct Drawn {
    pub(crate) chunk: u64,
    pub(crate) part: ChunkPart,
}

/// Draws the next chunk and takes its part. None ends the seat's draws.
pub(crate) fn draw_next(
    table: &Phase<ChunkPart>,
    seat: &mut Option<WorkerSeat<ChunkPart>>,
) -> Option<Drawn>
    requires fresh { IsFresh table.now seat.old }
    requires going { IsGoing false seat.old }
    ensures fresh { IsFresh table.now seat.new }
    ensures going { MatchOption result (IsGoing true seat.new) (λ _. IsGoing false seat.new) }
    ensures drawn { MatchOption result (drawn_by seat.new ≡ drawn_by seat.old) (λ d. drawn_by seat.new ≡ drawn_by seat.old ++ d.chunk ∷ []) }
    ensures part { MatchOption result (Unit {0}) (λ d. slice_get table.now.parts d.chunk ≡ Some d.part) }
    ensures within { MatchOption result (Unit {0}) (λ d. d.chunk < length table.now.parts) }
    ensures later { MatchOption result (Unit {0}) (λ d. (k : ℕ) → 0 < times k (drawn_by seat.old) → k < d.chunk) }
{
    let Some(own) = seat else { unreachable!() };
    match table.draw(own) {
        Some(chunk) => Some(Drawn {
            chunk,
            part: table.take(own),
        }),
        None => None,
    }
}
