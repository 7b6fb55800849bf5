// What is counted of phases.
ghost use Rattle.std.specs.Prelude.{◌≡◌, ◌≤◌, IfSome, OnOk};
ghost use Rattle.index_cutter.specs.Cuts.{chunks_of};
ghost use Rattle.phase_count.specs.Tallies.{PhaseNumbers, counted_in, one_more, one_phase};
ghost use Rattle.wl_core.specs.declared.limits.TheConstants.{MOST_CHUNKS};

use crate::alone::draw_alone;
use count_table::Tally;
use index_cutter::{Cutting, cut};
use sac_base::Memory;
use std::alloc::Global;
use std::marker::Model;
use std::mem;

/// How many phases there were so far, and how many chunks they drew, both modulo 2^64.
///
/// Outside of cells each phase has a table, whose chunks are drawn, and which is closed into a tally. Within a cell
/// with-loops are no phases: they have no table, and they are counted only until the cell ends.
#[derive(Drop)]
pub struct PhaseCount {
    cutting: Cutting,
    number: u64,
    draws: u64,
    /// What the tally had before the first phase.
    before: Totals,
    /// None within a cell, and while the workers of a phase have it.
    tally: Option<Tally>,
}

/// The two numbers of a tally.
#[derive(Clone, Copy)]
pub struct Totals {
    pub phases: u64,
    pub draws: u64,
}

impl Model for PhaseCount {
    ghost use Rattle.phase_count.specs.Tallies.{IsTallyOf, PhaseNumbers};

    ghost Value = { PhaseNumbers };

    ghost view = { λ c. record { workers = c.cutting.workers; chunk = c.cutting.chunk; number = c.number; draws = c.draws } };

    ghost invariant = { λ c. IsTallyOf c.before.phases c.before.draws
        (record { workers = c.cutting.workers; chunk = c.cutting.chunk; number = c.number; draws = c.draws }) c.tally };
}

impl PhaseCount {
    /// No phase yet. The phases to come are cut so, and closed into this tally.
    pub fn of(tally: Tally, cutting: Cutting) -> PhaseCount
        ensures { result ≡ record { workers = cutting.workers; chunk = cutting.chunk; number = 0; draws = 0 } }
    {
        let before = numbers_of(&tally);
        PhaseCount {
            cutting,
            number: 0,
            draws: 0,
            before,
            tally: Some(tally),
        }
    }

    /// No loop yet within a cell.
    pub fn within_cell() -> PhaseCount
        ensures number { result.number ≡ 0 }
        ensures draws { result.draws ≡ 0 }
    {
        PhaseCount {
            cutting: Cutting::of(1, None),
            number: 0,
            draws: 0,
            before: Totals {
                phases: 0,
                draws: 0,
            },
            tally: None,
        }
    }

    /// One phase more of so many positions, whose cells are computed in order, so that no buffer is shared. Its chunks are
    /// drawn by this thread. More than 2^24 positions, which no frame has, count as want of memory.
    pub fn count(&mut self, alloc: Global, positions: usize) -> Result<(), Memory>
        ensures { OnOk result (self.new ≡ one_more positions self.old) }
    {
        let Some(chunks) = chunks_in(self.cutting, positions) else {
            return Err(Memory);
        };
        if let Some(tally) = &mut self.tally {
            draw_alone(alloc, chunks, tally)?;
        }
        self.number = self.number.wrapping_add(1);
        self.draws = self.draws.wrapping_add(chunks);
        Ok(())
    }

    /// Within a cell from here on. What comes back is to stand here again after the cell.
    pub fn enter_cell(&mut self) -> PhaseCount
        ensures outer { result ≡ self.old }
        ensures same { self.new ≡ self.old }
    {
        let inner = PhaseCount {
            cutting: self.cutting,
            number: self.number,
            draws: self.draws,
            before: self.before,
            tally: None,
        };
        mem::replace(self, inner)
    }

    /// One phase more of so many positions, which workers compute. It is to be closed into the tally, which then comes
    /// back. Within a cell there is none, nor for more than 2^24 positions.
    pub fn hand_out(&mut self, positions: usize) -> Option<OpenTally>
        ensures counted { IfSome result (λ _. self.new ≡ one_more positions self.old) }
        ensures cutting { IfSome result (λ handed. (handed.cutting.workers ≡ self.old.workers) × (handed.cutting.chunk ≡ self.old.chunk)) }
        ensures tally { IfSome result (λ handed. one_phase (chunks_of handed.cutting.workers handed.cutting.chunk positions) handed.tally
            ≡ counted_in handed.before.phases handed.before.draws self.new) }
    {
        let cutting = self.cutting;
        let chunks = chunks_in(cutting, positions)?;
        self.number = self.number.wrapping_add(1);
        self.draws = self.draws.wrapping_add(chunks);
        let before = self.before;
        match self.tally.take() {
            Some(tally) => Some(OpenTally {
                tally,
                before,
                cutting,
            }),
            None => None,
        }
    }

    /// Takes the tally back, into which the phase was closed.
    pub fn take_back(&mut self, handed: OpenTally)
        requires { handed.tally ≡ counted_in handed.before.phases handed.before.draws self.old }
        ensures { self.new ≡ self.old }
    {
        self.before = handed.before;
        self.tally = Some(handed.tally);
    }

    /// How many phases there were.
    pub fn number(&self) -> u64
        ensures { result ≡ self.now.number }
    {
        self.number
    }

    /// The tally that the phases were closed into, if it had these numbers before the first of them, and the phases were
    /// cut so.
    pub fn into_tally(self, before: Totals, cutting: Cutting) -> Option<Tally>
        ensures tally { IfSome result (λ tally. tally ≡ counted_in before.phases before.draws self) }
        ensures cut { IfSome result (λ _. (self.workers ≡ cutting.workers) × (self.chunk ≡ cutting.chunk)) }
    {
        let PhaseCount {
            cutting: cut,
            number: _,
            draws: _,
            before: own,
            tally,
        } = self;
        let same_cut = cut.workers == cutting.workers && cut.chunk == cutting.chunk;
        if !same_cut || own.phases != before.phases || own.draws != before.draws {
            return None;
        }
        tally
    }
}

/// The tally of a run, handed out while workers compute a phase, what it had before the run's first phase, and how the
/// phase is cut.
#[derive(Drop)]
pub struct OpenTally {
    pub tally: Tally,
    pub before: Totals,
    pub cutting: Cutting,
}

// How many chunks so many positions are cut into.
fn chunks_in(cutting: Cutting, positions: usize) -> Option<u64>
    ensures { IfSome result (λ chunks. (chunks ≡ chunks_of cutting.workers cutting.chunk positions) × (chunks ≤ MOST_CHUNKS)) }
{
    if positions > MOST {
        return None;
    }
    Some(cut(positions as u64, cutting.workers, cutting.chunk).count)
}

// The most positions of a phase.
const MOST: usize = 16_777_216;

/// The numbers of a tally.
pub fn numbers_of(tally: &Tally) -> Totals
    ensures phases { result.phases ≡ tally.now.phases }
    ensures draws { result.draws ≡ tally.now.draws }
{
    Totals {
        phases: tally.phases(),
        draws: tally.draws(),
    }
}
