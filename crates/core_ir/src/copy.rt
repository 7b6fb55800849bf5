//! Copies of trees.

ghost use Rattle.std.specs.Prelude.{◌≡◌, IfOk, map};
ghost use Rattle.core_ir.specs.View.{block_term, let_term, right_term, with_term, gen_term, parted_term, part_term, fun_term, core_term};

use crate::{Block, Core, CoreFun, CoreGen, CorePart, Let, PartedLoop, Right, Var, WithLoop};
use sac_base::{ArrayType, Memory, copy_array, copy_name, copy_type};
use std::alloc::Global;

/// An equal block.
#[cycle(copy)]
pub fn copy_block(alloc: Global, block: &Block) -> Result<Block, Memory>
    ensures { IfOk result (λ b. block_term b ≡ block_term block.now) }
{
    let mut lets = Vec::new(alloc);
    for binding in &block.lets {
        lets.push(copy_let(alloc, binding)?)?;
    }
    Ok(Block {
        lets,
        results: copy_vars(alloc, &block.results)?,
    })
}

#[cycle(copy)]
fn copy_let(alloc: Global, binding: &Let) -> Result<Let, Memory>
    ensures { IfOk result (λ l. let_term l ≡ let_term binding.now) }
{
    Ok(Let {
        targets: copy_vars(alloc, &binding.targets)?,
        site: binding.site,
        right: copy_right(alloc, &binding.right)?,
    })
}

/// An equal right side.
#[cycle(copy)]
pub fn copy_right(alloc: Global, right: &Right) -> Result<Right, Memory>
    ensures { IfOk result (λ r. right_term r ≡ right_term right.now) }
{
    match right {
        Right::Const(a) => Ok(Right::Const(copy_array(a)?)),
        Right::Copy(x) => Ok(Right::Copy(*x)),
        Right::Unary(op, x) => Ok(Right::Unary(*op, *x)),
        Right::Binary(op, x, y) => Ok(Right::Binary(*op, *x, *y)),
        Right::Literal(xs) => Ok(Right::Literal(copy_vars(alloc, xs)?)),
        Right::Dim(x) => Ok(Right::Dim(*x)),
        Right::ShapeOf(x) => Ok(Right::ShapeOf(*x)),
        Right::Reshape(x, y) => Ok(Right::Reshape(*x, *y)),
        Right::Select(x, y) => Ok(Right::Select(*x, *y)),
        Right::Replace(x, y, z) => Ok(Right::Replace(*x, *y, *z)),
        Right::If { cond, yes, no } => Ok(Right::If {
            cond: *cond,
            yes: copy_block(alloc, yes)?,
            no: copy_block(alloc, no)?,
        }),
        Right::Loop {
            first_body,
            start,
            params,
            test,
            body,
            test_site,
        } => Ok(Right::Loop {
            first_body: *first_body,
            start: copy_vars(alloc, start)?,
            params: copy_vars(alloc, params)?,
            test: copy_block(alloc, test)?,
            body: copy_block(alloc, body)?,
            test_site: *test_site,
        }),
        Right::Call { group, args } => Ok(Right::Call {
            group: *group,
            args: copy_vars(alloc, args)?,
        }),
        Right::With(w) => Ok(Right::With(copy_with(alloc, w)?)),
        Right::Parted(p) => Ok(Right::Parted(copy_parted(alloc, p)?)),
        Right::Always(kind) => Ok(Right::Always(*kind)),
        Right::Check(x, ty) => Ok(Right::Check(*x, copy_type(ty))),
    }
}

#[cycle(copy)]
fn copy_with(alloc: Global, with: &WithLoop) -> Result<WithLoop, Memory>
    ensures { IfOk result (λ w. with_term w ≡ with_term with.now) }
{
    let mut gens = Vec::new(alloc);
    for generator in &with.gens {
        gens.push(copy_gen(alloc, generator)?)?;
    }
    Ok(WithLoop { gens, op: with.op })
}

#[cycle(copy)]
fn copy_gen(alloc: Global, generator: &CoreGen) -> Result<CoreGen, Memory>
    ensures { IfOk result (λ g. gen_term g ≡ gen_term generator.now) }
{
    Ok(CoreGen {
        lower: generator.lower,
        lower_closed: generator.lower_closed,
        upper: generator.upper,
        upper_closed: generator.upper_closed,
        step: generator.step,
        width: generator.width,
        index: generator.index,
        names: copy_vars(alloc, &generator.names)?,
        body: copy_block(alloc, &generator.body)?,
        site: generator.site,
    })
}

#[cycle(copy)]
fn copy_parted(alloc: Global, parted: &PartedLoop) -> Result<PartedLoop, Memory>
    ensures { IfOk result (λ p. parted_term p ≡ parted_term parted.now) }
{
    let mut parts = Vec::new(alloc);
    for part in &parted.parts {
        parts.push(copy_part(alloc, part)?)?;
    }
    let frame = parted.frame.copy(alloc)?;
    let cell = parted.cell.copy();
    Ok(PartedLoop {
        frame,
        base: parted.base,
        cell,
        op: parted.op,
        parts,
    })
}

#[cycle(copy)]
fn copy_part(alloc: Global, part: &CorePart) -> Result<CorePart, Memory>
    ensures { IfOk result (λ p. part_term p ≡ part_term part.now) }
{
    Ok(CorePart {
        grid: part.grid.copy(alloc)?,
        index: part.index,
        body: copy_block(alloc, &part.body)?,
        site: part.site,
    })
}

fn copy_vars(alloc: Global, vars: &[Var]) -> Result<Vec<Var>, Memory>
    ensures { IfOk result (λ v. v.items ≡ vars.now) }
{
    Ok(Vec::from_slice(alloc, vars)?)
}

/// An equal function.
pub fn copy_function(alloc: Global, function: &CoreFun) -> Result<CoreFun, Memory>
    ensures { IfOk result (λ f. fun_term f ≡ fun_term function.now) }
{
    Ok(CoreFun {
        name: copy_name(&function.name)?,
        site: function.site,
        params: copy_params(alloc, &function.params)?,
        results: copy_types(alloc, &function.results)?,
        inline: function.inline,
        body: copy_block(alloc, &function.body)?,
        ends: function.ends,
    })
}

fn copy_params(alloc: Global, params: &[(Var, ArrayType)]) -> Result<Vec<(Var, ArrayType)>, Memory>
    ensures { IfOk result (λ v. v.items ≡ params.now) }
{
    let mut copy = Vec::new(alloc);
    for (var, ty) in params {
        copy.push((*var, copy_type(ty)))?;
    }
    Ok(copy)
}

fn copy_types(alloc: Global, types: &[ArrayType]) -> Result<Vec<ArrayType>, Memory>
    ensures { IfOk result (λ v. v.items ≡ types.now) }
{
    let mut copy = Vec::new(alloc);
    for ty in types {
        copy.push(copy_type(ty))?;
    }
    Ok(copy)
}

fn copy_groups(alloc: Global, groups: &[Vec<u32>]) -> Result<Vec<Vec<u32>>, Memory>
    ensures { IfOk result (λ v. map (λ g. g.items) v.items ≡ map (λ g. g.items) groups.now) }
{
    let mut copy = Vec::new(alloc);
    for group in groups {
        copy.push(Vec::from_slice(alloc, group)?)?;
    }
    Ok(copy)
}

fn copy_functions(alloc: Global, functions: &[CoreFun]) -> Result<Vec<CoreFun>, Memory>
    ensures { IfOk result (λ v. map fun_term v.items ≡ map fun_term functions.now) }
{
    let mut copy = Vec::new(alloc);
    for function in functions {
        copy.push(copy_function(alloc, function)?)?;
    }
    Ok(copy)
}

/// An equal core.
pub fn copy_core(alloc: Global, core: &Core) -> Result<Core, Memory>
    ensures { IfOk result (λ c. core_term c ≡ core_term core.now) }
{
    Ok(Core {
        functions: copy_functions(alloc, &core.functions)?,
        groups: copy_groups(alloc, &core.groups)?,
        main: core.main,
    })
}
