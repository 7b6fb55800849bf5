//! The parts of a merged loop.

ghost use Rattle.std.specs.Prelude.{◌≡◌, ◌+◌, ◌≤◌, ◌++◌, [], ◌∷◌, IfOk, OnOk, All, map, length};
ghost use Rattle.core_ir.specs.View.{block_term, part_term};
ghost use Rattle.merge_plans.specs.Openings.{lets_of};
ghost use Rattle.merged_parts.specs.Merging.{merged_all, merged_at, merged_inner, merged_part as merged_of, GridFits, PartFits};
ghost use Rattle.parted_bodies.specs.Making.{binds_of};

use crate::bodies::{body_behind, names_for, with_indices};
use crate::indices::components_of;
use crate::splitting::split_body;
use core_ir::{Block, CorePart, Var};
use merge_plans::joined_grid;
use parted_bodies::Progress;
use sac_base::{Grid, Memory};
use std::alloc::Global;

/// The parts of a loop that is merged with the inner loops of its parts: for each part of an inner loop, the bindings around that loop and the part's body,
/// copied with new variables, behind bindings that make the two old indices from the new one.
///
/// # Errors
///
/// `Memory`: there is none for the parts, or the numbers of variables have more than 32 bits.
pub fn merged_parts(
    alloc: Global,
    parts: Vec<CorePart>,
    progress: &mut Progress,
) -> Result<Vec<CorePart>, Memory>
    requires fits { All PartFits (map part_term parts.items) }
    ensures parts { IfOk result (λ ps. map part_term ps.items ≡ merged_all (map part_term parts.items) progress.old.next) }
    ensures next { OnOk result (progress.new
        ≡ record progress.old { next = progress.old.next + binds_of (merged_all (map part_term parts.items) progress.old.next) }) }
{
    let mut merged = Vec::new(alloc);
    for part in parts {
        add_merged(alloc, part, &mut merged, progress)?;
    }
    Ok(merged)
}

/// Appends the parts for those of the inner loop of one part.
fn add_merged(
    alloc: Global,
    part: CorePart,
    merged: &mut Vec<CorePart>,
    progress: &mut Progress,
) -> Result<(), Memory>
    requires fits { PartFits (part_term part) }
    ensures parts { OnOk result (map part_term merged.new.items ≡ map part_term merged.old.items ++ merged_of (part_term part) progress.old.next) }
    ensures next { OnOk result (progress.new
        ≡ record progress.old { next = progress.old.next + binds_of (merged_of (part_term part) progress.old.next) }) }
{
    let CorePart {
        grid,
        index,
        body,
        ..
    } = part;
    match split_body(alloc, body) {
        Some(split) => add_inner(
            alloc,
            &grid,
            index,
            &split.around,
            &split.inner.parts,
            merged,
            progress,
        ),
        None => Ok(()),
    }
}

/// Appends the parts for those of an inner loop, in a part of this grid and index.
fn add_inner(
    alloc: Global,
    grid: &Grid,
    index: Var,
    around: &Block,
    inner: &[CorePart],
    merged: &mut Vec<CorePart>,
    progress: &mut Progress,
) -> Result<(), Memory>
    requires fits { All (GridFits grid.now) (map part_term inner.now) }
    ensures parts { OnOk result (map part_term merged.new.items ≡ map part_term merged.old.items
        ++ merged_inner grid.now index (lets_of (block_term around.now)) (map part_term inner.now) progress.old.next) }
    ensures next { OnOk result (progress.new ≡ record progress.old {
      next = progress.old.next + binds_of (merged_inner grid.now index (lets_of (block_term around.now)) (map part_term inner.now) progress.old.next);
    }) }
{
    for part in inner {
        let made = merged_part(alloc, grid, index, around, part, progress)?;
        merged.push(made)?;
    }
    Ok(())
}

/// The part for one part of an inner loop.
fn merged_part(
    alloc: Global,
    grid: &Grid,
    index: Var,
    around: &Block,
    inner: &CorePart,
    progress: &mut Progress,
) -> Result<CorePart, Memory>
    requires fits { GridFits grid.now (part_term inner.now) }
    ensures part { IfOk result (λ p. part_term p ≡ merged_at grid.now index (lets_of (block_term around.now)) (part_term inner.now) progress.old.next) }
    ensures next { OnOk result (progress.new ≡ record progress.old {
      next = progress.old.next
          + binds_of (merged_at grid.now index (lets_of (block_term around.now)) (part_term inner.now) progress.old.next ∷ []);
    }) }
{
    let own = progress.take()?;
    let outer_axes = grid.axes().len();
    let axes = outer_axes + inner.grid.axes().len();
    let made = components_of(alloc, inner.site, own, axes, progress)?;
    let names = names_for(alloc, index, inner.index, around, &inner.body, progress)?;
    let before = with_indices(
        alloc,
        made,
        outer_axes,
        names.of(index),
        names.of(inner.index),
        inner.site,
    )?;
    Ok(CorePart {
        grid: joined_grid(alloc, grid, &inner.grid)?,
        index: own,
        body: body_behind(alloc, before, around, &inner.body, &names)?,
        site: inner.site,
    })
}
