//! Copies in which other variables stand for those of a block.

ghost use Rattle.std.specs.Prelude.{◌≡◌, IfOk, map, option_map};
ghost use Rattle.core_ir.specs.declared.tree.Var.{Var as Variable};
ghost use Rattle.core_ir.specs.View.{block_term, let_term, right_term, with_term, gen_term, parted_term, part_term};
ghost use Rattle.core_subst.specs.Substitution.{core_op_with, parted_op_with};
ghost use Rattle.core_subst.specs.copy.Mapped.{mapped, mapped_right, mapped_let, mapped_gen, mapped_part};

use core_ir::{Block, CoreGen, CoreOp, CorePart, Let, PartedLoop, PartedOp, Right, Var, WithLoop};
use sac_base::{Memory, copy_array, copy_type};
use std::alloc::Global;

/// Which variables stand for those of a block in a copy.
pub trait Naming {
    /// The variable that stands for another.
    ghost named: { Self → Variable → Variable };

    /// The variable that stands for this one.
    fn name(&self, x: Var) -> Var
        ensures { result ≡ named self.now x };
}

/// A copy of a block in which each variable, bound or free, is the one that stands for it.
///
/// # Errors
///
/// `Memory`: there is none for the copy.
#[cycle(copying)]
pub fn copy_named<N: Naming>(alloc: Global, block: &Block, names: &N) -> Result<Block, Memory>
    ensures { IfOk result (λ b. block_term b ≡ mapped (N.named names.now) (block_term block.now)) }
{
    let mut lets = Vec::new(alloc);
    for binding in &block.lets {
        lets.push(copy_let(alloc, binding, names)?)?;
    }
    Ok(Block {
        lets,
        results: copy_vars(alloc, &block.results, names)?,
    })
}

#[cycle(copying)]
fn copy_let<N: Naming>(alloc: Global, binding: &Let, names: &N) -> Result<Let, Memory>
    ensures { IfOk result (λ l. let_term l ≡ mapped_let (N.named names.now) (let_term binding.now)) }
{
    Ok(Let {
        targets: copy_vars(alloc, &binding.targets, names)?,
        site: binding.site,
        right: copy_right(alloc, &binding.right, names)?,
    })
}

#[cycle(copying)]
fn copy_right<N: Naming>(alloc: Global, right: &Right, names: &N) -> Result<Right, Memory>
    ensures { IfOk result (λ r. right_term r ≡ mapped_right (N.named names.now) (right_term right.now)) }
{
    match right {
        Right::Const(a) => Ok(Right::Const(copy_array(a)?)),
        Right::Copy(x) => Ok(Right::Copy(names.name(*x))),
        Right::Unary(op, x) => Ok(Right::Unary(*op, names.name(*x))),
        Right::Binary(op, x, y) => Ok(Right::Binary(*op, names.name(*x), names.name(*y))),
        Right::Literal(xs) => Ok(Right::Literal(copy_vars(alloc, xs, names)?)),
        Right::Dim(x) => Ok(Right::Dim(names.name(*x))),
        Right::ShapeOf(x) => Ok(Right::ShapeOf(names.name(*x))),
        Right::Reshape(x, y) => Ok(Right::Reshape(names.name(*x), names.name(*y))),
        Right::Select(x, y) => Ok(Right::Select(names.name(*x), names.name(*y))),
        Right::Replace(x, y, z) => Ok(Right::Replace(
            names.name(*x),
            names.name(*y),
            names.name(*z),
        )),
        Right::If { cond, yes, no } => Ok(Right::If {
            cond: names.name(*cond),
            yes: copy_named(alloc, yes, names)?,
            no: copy_named(alloc, no, names)?,
        }),
        Right::Loop {
            first_body,
            start,
            params,
            test,
            body,
            test_site,
        } => Ok(Right::Loop {
            first_body: *first_body,
            start: copy_vars(alloc, start, names)?,
            params: copy_vars(alloc, params, names)?,
            test: copy_named(alloc, test, names)?,
            body: copy_named(alloc, body, names)?,
            test_site: *test_site,
        }),
        Right::Call { group, args } => Ok(Right::Call {
            group: *group,
            args: copy_vars(alloc, args, names)?,
        }),
        Right::With(w) => Ok(Right::With(copy_with(alloc, w, names)?)),
        Right::Parted(p) => Ok(Right::Parted(copy_parted(alloc, p, names)?)),
        Right::Always(kind) => Ok(Right::Always(*kind)),
        Right::Check(x, ty) => Ok(Right::Check(names.name(*x), copy_type(ty))),
    }
}

#[cycle(copying)]
fn copy_with<N: Naming>(alloc: Global, with: &WithLoop, names: &N) -> Result<WithLoop, Memory>
    ensures { IfOk result (λ w. with_term w ≡ mapped_right (N.named names.now) (with_term with.now)) }
{
    let mut gens = Vec::new(alloc);
    for generator in &with.gens {
        gens.push(copy_gen(alloc, generator, names)?)?;
    }
    Ok(WithLoop {
        gens,
        op: copy_op(with.op, names),
    })
}

#[cycle(copying)]
fn copy_gen<N: Naming>(alloc: Global, generator: &CoreGen, names: &N) -> Result<CoreGen, Memory>
    ensures { IfOk result (λ g. gen_term g ≡ mapped_gen (N.named names.now) (gen_term generator.now)) }
{
    Ok(CoreGen {
        lower: copy_option(generator.lower, names),
        lower_closed: generator.lower_closed,
        upper: copy_option(generator.upper, names),
        upper_closed: generator.upper_closed,
        step: copy_option(generator.step, names),
        width: copy_option(generator.width, names),
        index: names.name(generator.index),
        names: copy_vars(alloc, &generator.names, names)?,
        body: copy_named(alloc, &generator.body, names)?,
        site: generator.site,
    })
}

#[cycle(copying)]
fn copy_parted<N: Naming>(
    alloc: Global,
    parted: &PartedLoop,
    names: &N,
) -> Result<PartedLoop, Memory>
    ensures { IfOk result (λ p. parted_term p ≡ mapped_right (N.named names.now) (parted_term parted.now)) }
{
    let mut parts = Vec::new(alloc);
    for part in &parted.parts {
        parts.push(copy_part(alloc, part, names)?)?;
    }
    let frame = parted.frame.copy(alloc)?;
    let cell = parted.cell.copy();
    Ok(PartedLoop {
        frame,
        base: parted.base,
        cell,
        op: copy_parted_op(parted.op, names),
        parts,
    })
}

#[cycle(copying)]
fn copy_part<N: Naming>(alloc: Global, part: &CorePart, names: &N) -> Result<CorePart, Memory>
    ensures { IfOk result (λ p. part_term p ≡ mapped_part (N.named names.now) (part_term part.now)) }
{
    Ok(CorePart {
        grid: part.grid.copy(alloc)?,
        index: names.name(part.index),
        body: copy_named(alloc, &part.body, names)?,
        site: part.site,
    })
}

fn copy_op<N: Naming>(op: CoreOp, names: &N) -> CoreOp
    ensures { result ≡ core_op_with (N.named names.now) op }
{
    match op {
        CoreOp::Genarray { shape, default } => CoreOp::Genarray {
            shape: names.name(shape),
            default: names.name(default),
        },
        CoreOp::Modarray { array } => CoreOp::Modarray {
            array: names.name(array),
        },
        CoreOp::Fold { op, neutral } => CoreOp::Fold {
            op,
            neutral: names.name(neutral),
        },
    }
}

fn copy_parted_op<N: Naming>(op: PartedOp, names: &N) -> PartedOp
    ensures { result ≡ parted_op_with (N.named names.now) op }
{
    match op {
        PartedOp::Genarray => PartedOp::Genarray,
        PartedOp::Modarray { array } => PartedOp::Modarray {
            array: names.name(array),
        },
        PartedOp::Fold { op, neutral } => PartedOp::Fold {
            op,
            neutral: names.name(neutral),
        },
    }
}

fn copy_option<N: Naming>(var: Option<Var>, names: &N) -> Option<Var>
    ensures { result ≡ option_map (N.named names.now) var }
{
    match var {
        Some(x) => Some(names.name(x)),
        None => None,
    }
}

fn copy_vars<N: Naming>(alloc: Global, vars: &[Var], names: &N) -> Result<Vec<Var>, Memory>
    ensures { IfOk result (λ v. v.items ≡ map (N.named names.now) vars.now) }
{
    let mut copied = Vec::new(alloc);
    for var in vars {
        copied.push(names.name(*var))?;
    }
    Ok(copied)
}
