//! The walk of a worker along the runs of a loop's positions.

ghost use Rattle.std.specs.Prelude.{◌≡◌, ◌<◌, ◌≤◌, ℕ, length, option_map, IfOk, IsTrue, None, OnOk};
ghost use Rattle.phase_loop_cells.specs.Cells.{index_at};
ghost use Rattle.phase_loop_cells.specs.Ranges.{AreAll, AreMade};
ghost use Rattle.phase_loop_cells.specs.Walks.{IsRun, IsWalk};
ghost use Rattle.run_loops.specs.Loops.{body_of, held_body};

use crate::ranges::{are_all, made_ranges, source_ranges};
use array_with_loops::{IndexVector, Plan, Range};
use loop_code::run_at;
use run_loops::{CellBody, CellSource, body_at, body_of_place};
use sac_base::Memory;
use std::alloc::Global;

/// Positions of one row that the generator or part at one place computes, or none.
#[derive(Clone, Copy, Drop)]
pub(crate) struct CellRun {
    pub from: usize,
    pub until: usize,
    pub place: Option<usize>,
}

impl CellRun {
    pub fn has(&self, position: usize) -> bool
        ensures { IsTrue result → (self.now.from ≤ position) × (position < self.now.until) }
    {
        self.from <= position && position < self.until
    }
}

/// Where a worker is: the index of its last cell, the ranges that were made of parts, and the run of the last cell.
#[derive(Drop)]
pub struct Walk {
    index: IndexVector,
    made: Vec<Range>,
    run: CellRun,
}

impl Walk {
    /// Before the first cell.
    pub fn new(alloc: Global, source: &CellSource<'_>, plan: &Plan) -> Result<Walk, Memory>
        ensures { IfOk result (λ walk. IsWalk source.now plan.now walk) }
    {
        Ok(Walk {
            index: IndexVector::new(alloc),
            made: made_ranges(alloc, source)?,
            run: CellRun {
                from: 0,
                until: 0,
                place: None,
            },
        })
    }

    /// The index of the last cell.
    pub fn index(&self) -> &[i32]
        ensures { result.now ≡ self.now.index }
    {
        self.index.components()
    }

    /// Goes to a position. What computes its cell, if it has one.
    pub fn go_to<'a>(
        &mut self,
        source: &CellSource<'a>,
        plan: &Plan,
        position: usize,
    ) -> Result<Option<CellBody<'a>>, Memory>
        requires walk { IsWalk source.now plan.now self.old }
        requires position { position < length plan.now.frame }
        ensures body { IfOk result (λ body. option_map body_of body ≡ held_body source.now plan.now.ranges.items (index_at plan.now.frame position)) }
        ensures index { OnOk result (self.new.index ≡ index_at plan.now.frame position) }
        ensures walk { IsWalk source.now plan.now self.new }
    {
        plan.frame.index(position, &mut self.index)?;
        let index = self.index.components();
        if !self.run.has(position) {
            self.run = run_from(source, plan, &self.made, position, index);
        }
        Ok(body_in(self.run, source, plan, position, index))
    }
}

// The run of a position, as far as it is known: behind the ranges of parts there may be parts without one.
pub(crate) fn run_from(
    source: &CellSource<'_>,
    plan: &Plan,
    made: &[Range],
    position: usize,
    index: &[i32],
) -> CellRun
    requires made { AreMade source.now made.now }
    requires position { position < length plan.now.frame }
    requires index { index.now ≡ index_at plan.now.frame position }
    ensures { IsRun source.now plan.now result }
{
    let most = plan.frame.row_left(position);
    let run = run_at(source_ranges(source, plan, made), index, most);
    if !is_known(run.place, source, made) {
        return CellRun {
            from: position,
            until: position,
            place: None,
        };
    }
    let _ = plan.frame.count();
    CellRun {
        from: position,
        until: position + run.count,
        place: run.place,
    }
}

// Whether the place is that of the source's holder: where there is none, each part must have a range.
fn is_known(place: Option<usize>, source: &CellSource<'_>, made: &[Range]) -> bool
    ensures { IsTrue result → place ≡ None → AreAll source.now made.now }
{
    match place {
        Some(_) => true,
        None => are_all(source, made),
    }
}

// What computes the cell of a position: what the run says, if it has the position.
fn body_in<'a>(
    run: CellRun,
    source: &CellSource<'a>,
    plan: &Plan,
    position: usize,
    index: &[i32],
) -> Option<CellBody<'a>>
    requires run { IsRun source.now plan.now run }
    requires index { index.now ≡ index_at plan.now.frame position }
    ensures { option_map body_of result ≡ held_body source.now plan.now.ranges.items (index_at plan.now.frame position) }
{
    if !run.has(position) {
        return body_at(source, &plan.ranges, index);
    }
    match run.place {
        Some(place) => body_of_place(source, place),
        None => None,
    }
}
