//! Positions whose indices no generator and no part holds.

ghost use Rattle.std.specs.Prelude.{◌≡◌, ◌+◌, ◌*◌, ◌^◌, ◌<◌, ◌≤◌, ℕ, pos, [], ◌∷◌, length, slice_index_or, IfSome, Ok, Some};
ghost use Rattle.phase_loop_cells.specs.Cells.{source_cell, source_taken, stands_at};
ghost use Rattle.phase_loop_cells.specs.Ranges.{AreMade};
ghost use Rattle.run_values.specs.Scopes.{current};
ghost use Rattle.sac_base.specs.Arrays.{size};

use crate::copies::Background;
use crate::loops::LoopCells;
use crate::walk::run_from;
use array_with_loops::{IndexVector, Range};
use sac_base::Cell;

impl<'a> LoopCells<'a> {
    /// Writes what stands where an index has no cell for the positions from one on along their row, as far as no generator and no part
    /// holds them: an element each, into the front of those that are given. Answers how many they are; 0 says nothing. The ranges
    /// are those that were made of parts.
    pub fn fill_free(
        &self,
        made: &[Range],
        index: &mut IndexVector,
        start: usize,
        count: usize,
        rows: &mut [Cell],
    ) -> usize
        requires made { AreMade self.now.source made.now }
        requires within { start + count ≤ length self.now.plan.now.frame }
        requires room { length rows.old ≡ count * size self.now.plan.now.form.shape }
        ensures most { result ≤ count }
        ensures one { 1 ≤ result → size self.now.plan.now.form.shape ≡ 1 }
        ensures each { (j : ℕ) → j < result
            → source_cell self.now.context self.now.heap.now (current self.now.frames.now) self.now.source self.now.plan.now self.now.background (start + j)
            ≡ Ok (Some (slice_index_or rows.new j (pos 0) ∷ [])) }
        ensures takes { (j : ℕ) → j < result
            → source_taken self.now.context self.now.heap.now (current self.now.frames.now) self.now.source self.now.plan.now (start + j) ≡ 0 }
    {
        let Some(background) = self.background else {
            return 0;
        };
        if count == 0 || rows.len() != count {
            return 0;
        }
        let Ok(()) = self.plan.frame.index(start, index) else {
            return 0;
        };
        let run = run_from(&self.source, self.plan, made, start, index.components());
        if run.place.is_some() || !run.has(start) {
            return 0;
        }
        let _ = self.plan.frame.count();
        let free = (run.until - start).min(count);
        fill_between(&background, start, &mut rows[..free])
    }
}

// Writes the elements that stand at the places from one on, up to the first that is no single one. Answers how many.
fn fill_between(background: &Background<'_>, start: usize, into: &mut [Cell]) -> usize
    requires { start + length into.old < 2 ^ 64 }
    ensures most { result ≤ length into.old }
    ensures each { (j : ℕ) → j < result
        → stands_at background.now.old background.now.cells.now background.now.size (start + j) ≡ slice_index_or into.new j (pos 0) ∷ [] }
{
    for j in 0..into.len() {
        let Some(element) = element_at(background, start + j) else {
            return j;
        };
        into[j] = element;
    }
    into.len()
}

// The element that stands at a place, if it is a single one.
fn element_at(background: &Background<'_>, place: usize) -> Option<Cell>
    ensures { IfSome result (λ n. stands_at background.now.old background.now.cells.now background.now.size place ≡ n ∷ []) }
{
    let cells = background.cells;
    if background.old {
        if background.size == 1 && place < cells.len() {
            Some(cells[place])
        } else {
            None
        }
    } else if cells.len() == 1 {
        Some(cells[0])
    } else {
        None
    }
}
