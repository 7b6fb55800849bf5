//! Parts of a parted loop, made from the generators of a with-loop.

ghost use Rattle.std.specs.Prelude.{◌≡◌, ◌+◌, [], ◌∷◌, IfOk, OnOk, length, map, option_map, option_to_list};
ghost use Rattle.core_ir.specs.declared.tree.Var.{Var as Variable};
ghost use Rattle.core_ir.specs.View.{gen_term, let_term, part_term, right_term};
ghost use Rattle.parted_bodies.specs.Numbering.{named_in};
ghost use Rattle.parted_bodies.specs.Making.{binds_of, component_lets, component_names, label_part, made_parts};
ghost use Rattle.parted_bodies.specs.Making.{default_part as default_of, gap_part as gap_of, generator_part as part_of_generator, old_part as old_of};

use crate::binders::bound_in;
use crate::copying::copy_block;
use crate::names::{Names, Progress};
use core_ir::{Block, CoreGen, CoreOp, CorePart, Let, PartedOp, Right, Var};
use sac_base::{Array, Base, Grid, Memory, Site};
use std::alloc::Global;

/// The parts for grids that name the first generator that has their members. Where none does, the loop at `site` has its default value or an old cell,
/// and a fold has no part.
///
/// All variables that the parts bind are new.
///
/// # Errors
///
/// `Memory`: there is none for the parts, or the numbers of variables have more than 32 bits.
pub fn parts_of(
    alloc: Global,
    op: CoreOp,
    site: Site,
    gens: &[CoreGen],
    grids: Vec<(Grid, Option<u64>)>,
    progress: &mut Progress,
) -> Result<Vec<CorePart>, Memory>
    ensures parts { IfOk result (λ ps. map part_term ps.items ≡ made_parts op site (map gen_term gens.now) grids.items progress.old.next) }
    ensures next { OnOk result (progress.new ≡ record progress.old {
      next = progress.old.next
          + binds_of (made_parts op site (map gen_term gens.now) grids.items progress.old.next);
    }) }
{
    let mut parts = Vec::new(alloc);
    for (grid, label) in grids {
        if let Some(part) = part_of(alloc, op, site, gens, grid, label, progress)? {
            parts.push(part)?;
        }
    }
    Ok(parts)
}

/// The part of a grid, if it has one.
fn part_of(
    alloc: Global,
    op: CoreOp,
    site: Site,
    gens: &[CoreGen],
    grid: Grid,
    label: Option<u64>,
    progress: &mut Progress,
) -> Result<Option<CorePart>, Memory>
    ensures part { IfOk result (λ p. option_map part_term p ≡ label_part op site (map gen_term gens.now) grid label progress.old.next) }
    ensures next { OnOk result (progress.new ≡ record progress.old {
      next = progress.old.next
          + binds_of (option_to_list (label_part op site (map gen_term gens.now) grid label progress.old.next));
    }) }
{
    match label {
        None => gap_part(alloc, op, site, grid, progress),
        Some(number) => match gens.get(number as usize) {
            Some(generator) => Ok(Some(generator_part(alloc, generator, grid, progress)?)),
            None => Ok(None),
        },
    }
}

/// The part of a grid whose members no generator has.
fn gap_part(
    alloc: Global,
    op: CoreOp,
    site: Site,
    grid: Grid,
    progress: &mut Progress,
) -> Result<Option<CorePart>, Memory>
    ensures part { IfOk result (λ p. option_map part_term p ≡ gap_of op site grid progress.old.next) }
    ensures next { OnOk result (progress.new
        ≡ record progress.old { next = progress.old.next + binds_of (option_to_list (gap_of op site grid progress.old.next)) }) }
{
    match op {
        CoreOp::Genarray { default, .. } => {
            Ok(Some(default_part(alloc, default, site, grid, progress)?))
        }
        CoreOp::Modarray { array } => Ok(Some(old_part(alloc, array, site, grid, progress)?)),
        CoreOp::Fold { .. } => Ok(None),
    }
}

/// The part that has the default value.
fn default_part(
    alloc: Global,
    default: Var,
    site: Site,
    grid: Grid,
    progress: &mut Progress,
) -> Result<CorePart, Memory>
    ensures part { IfOk result (λ p. part_term p ≡ default_of default site grid progress.old.next) }
    ensures next { OnOk result (progress.new ≡ record progress.old { next = progress.old.next + 1 }) }
{
    let index = progress.take()?;
    let body = Block {
        lets: Vec::new(alloc),
        results: one(alloc, default)?,
    };
    Ok(CorePart {
        grid,
        index,
        body,
        site,
    })
}

/// The part that has the cells of the array that was there.
fn old_part(
    alloc: Global,
    array: Var,
    site: Site,
    grid: Grid,
    progress: &mut Progress,
) -> Result<CorePart, Memory>
    ensures part { IfOk result (λ p. part_term p ≡ old_of array site grid progress.old.next) }
    ensures next { OnOk result (progress.new ≡ record progress.old { next = progress.old.next + 2 }) }
{
    let index = progress.take()?;
    let cell = progress.take()?;
    let mut lets = Vec::new(alloc);
    lets.push(binding(alloc, cell, site, Right::Select(array, index))?)?;
    let body = Block {
        lets,
        results: one(alloc, cell)?,
    };
    Ok(CorePart {
        grid,
        index,
        body,
        site,
    })
}

/// The part that has the cells of a generator: the components of the index that have names, and a copy of the body.
fn generator_part(
    alloc: Global,
    generator: &CoreGen,
    grid: Grid,
    progress: &mut Progress,
) -> Result<CorePart, Memory>
    ensures part { IfOk result (λ p. part_term p ≡ part_of_generator (gen_term generator.now) grid progress.old.next) }
    ensures next { OnOk result (progress.new ≡ record progress.old {
      next = progress.old.next
          + binds_of (part_of_generator (gen_term generator.now) grid progress.old.next ∷ []);
    }) }
{
    let index = progress.take()?;
    let mut names = Names::new(alloc);
    names.set(generator.index, index)?;
    let mut lets = components(
        alloc,
        generator.site,
        &generator.names,
        index,
        &mut names,
        progress,
    )?;
    names.set_all(&bound_in(alloc, &generator.body)?, progress)?;
    let Block {
        lets: mut copied,
        results,
    } = copy_block(alloc, &generator.body, &names)?;
    lets.append(&mut copied)?;
    Ok(CorePart {
        grid,
        index,
        body: Block { lets, results },
        site: generator.site,
    })
}

/// The bindings of the components of an index that have names.
fn components(
    alloc: Global,
    site: Site,
    components: &[Var],
    index: Var,
    names: &mut Names,
    progress: &mut Progress,
) -> Result<Vec<Let>, Memory>
    ensures lets { IfOk result (λ ls. map let_term ls.items ≡ component_lets site index 0 components.now progress.old.next) }
    ensures names { OnOk result ((z : Variable) → named_in names.new z ≡ component_names (named_in names.old) components.now progress.old.next z) }
    ensures next { OnOk result (progress.new ≡ record progress.old {
      next = progress.old.next
          + (length components.now + length components.now);
    }) }
{
    let mut lets = Vec::new(alloc);
    let mut place = 0i32;
    for name in components {
        let constant = progress.take()?;
        let component = progress.take()?;
        let number = Right::Const(Array::scalar(alloc, Base::Int, place)?);
        lets.push(binding(alloc, constant, site, number)?)?;
        let selection = Right::Select(index, constant);
        lets.push(binding(alloc, component, site, selection)?)?;
        names.set(*name, component)?;
        place = match place.checked_add(1) {
            Some(next) => next,
            None => return Err(Memory),
        };
    }
    Ok(lets)
}

/// A binding of one variable.
fn binding(alloc: Global, target: Var, site: Site, right: Right) -> Result<Let, Memory>
    ensures { IfOk result (λ l. let_term l ≡ record { targets = target ∷ []; site = site; right = right_term right }) }
{
    Ok(Let {
        targets: one(alloc, target)?,
        site,
        right,
    })
}

fn one(alloc: Global, x: Var) -> Result<Vec<Var>, Memory>
    ensures { IfOk result (λ xs. xs.items ≡ x ∷ []) }
{
    let mut vars = Vec::new(alloc);
    vars.push(x)?;
    Ok(vars)
}

/// What a parted loop makes of its cells.
pub fn parted_op(op: CoreOp) -> PartedOp
    ensures { result ≡ Rattle.parted_bodies.specs.Making.parted_op op }
{
    match op {
        CoreOp::Genarray { .. } => PartedOp::Genarray,
        CoreOp::Modarray { array } => PartedOp::Modarray { array },
        CoreOp::Fold { op, neutral } => PartedOp::Fold { op, neutral },
    }
}

/// The variable whose base a with-loop's result has.
pub fn base_var(op: CoreOp) -> Var
    ensures { result ≡ Rattle.parted_bodies.specs.Making.base_var op }
{
    match op {
        CoreOp::Genarray { default, .. } => default,
        CoreOp::Modarray { array } => array,
        CoreOp::Fold { neutral, .. } => neutral,
    }
}
