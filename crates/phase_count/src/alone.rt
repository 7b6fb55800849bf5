// A phase whose chunks one thread draws.
ghost use Rattle.std.specs.Prelude.{◌≡◌, ◌≤◌, [], true, false, OnErr, OnOk};
ghost use Rattle.phase_count.specs.Tallies.{one_phase};
ghost use Rattle.wl_core.specs.declared.limits.TheConstants.{MOST_CHUNKS};

use count_table::{Phase, Tally, WorkerSeat};
use sac_base::Memory;
use std::alloc::Global;

/// Opens the table of a phase that shares no buffer, draws its chunks, and closes it into the tally.
pub(crate) fn draw_alone(alloc: Global, chunks: u64, tally: &mut Tally) -> Result<(), Memory>
    requires { chunks ≤ MOST_CHUNKS }
    ensures ok { OnOk result (tally.new ≡ one_phase chunks tally.old) }
    ensures err { OnErr result (tally.new ≡ tally.old) }
{
    let (table, mut frame) = Phase::open(alloc, &[], chunks)?;
    let mut seat = table.seat(&mut frame);
    draw_all(&table, &mut seat);
    table.leave(seat, &mut frame);
    table.close(frame, &mut [], tally);
    Ok(())
}

// Draws until no chunk is left.
fn draw_all(table: &Phase<()>, seat: &mut WorkerSeat<()>)
    requires phase { seat.old.phase ≡ table.now }
    requires new { (seat.old.drawn ≡ []) × (seat.old.ended ≡ false) }
    ensures phase { seat.new.phase ≡ table.now }
    ensures holds { seat.new.holds ≡ seat.old.holds }
    ensures ended { seat.new.ended ≡ true }
{
    while let Some(_) = table.draw(seat) {}
}
