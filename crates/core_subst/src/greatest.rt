//! Variables that a function does not have.

ghost use Rattle.std.specs.Prelude.{◌≡◌, suc, IfSome, map};
ghost use Rattle.core_ir.specs.View.{block_term, right_term, with_term, gen_term, parted_term, fun_term};
ghost use Rattle.core_subst.specs.Names.{above, above_all, above_function, variable_at, IsNew};

use core_ir::{Block, CoreFun, CoreGen, PartedLoop, Right, Var, WithLoop};
use sac_base::ArrayType;

/// The variable whose number is one above the greatest in the function, and the first where it has no variable. There is none exactly where the
/// greatest number is `u32::MAX`.
pub fn fresh(fun: &CoreFun) -> Option<Var>
    ensures exact { result ≡ variable_at (above_function (fun_term fun.now)) }
    ensures new { IfSome result (λ x. IsNew (fun_term fun.now) x) }
{
    let number = above_params(&fun.params).max(above_block(&fun.body));
    match u32::try_from(number) {
        Ok(number) => Some(Var(number)),
        Err(_) => None,
    }
}

fn above_params(params: &[(Var, ArrayType)]) -> u64
    ensures { result ≡ above_all (map (λ p. p.0) params.now) }
{
    let mut number = 0u64;
    for (var, _) in params {
        number = number.max(above_var(*var));
    }
    number
}

fn above_var(var: Var) -> u64
    ensures { result ≡ suc var.0 }
{
    u64::from(var.0) + 1
}

fn above_vars(vars: &[Var]) -> u64
    ensures { result ≡ above_all vars.now }
{
    let mut number = 0u64;
    for var in vars {
        number = number.max(above_var(*var));
    }
    number
}

fn above_option(var: Option<Var>) -> u64
    ensures { result ≡ Rattle.core_subst.specs.Names.above_option var }
{
    match var {
        Some(var) => above_var(var),
        None => 0,
    }
}

fn above_head(generator: &CoreGen) -> u64
    ensures { result ≡ Rattle.core_subst.specs.Names.above_head (gen_term generator.now).head }
{
    above_option(generator.lower)
        .max(above_option(generator.upper))
        .max(above_option(generator.step))
        .max(above_option(generator.width))
}

#[cycle(fresh)]
fn above_block(block: &Block) -> u64
    ensures { result ≡ above (block_term block.now) }
{
    let mut number = above_vars(&block.results);
    for binding in &block.lets {
        number = number
            .max(above_vars(&binding.targets))
            .max(above_right(&binding.right));
    }
    number
}

#[cycle(fresh)]
fn above_right(right: &Right) -> u64
    ensures { result ≡ Rattle.core_subst.specs.Names.above_right (right_term right.now) }
{
    match right {
        Right::If { cond, yes, no } => above_var(*cond).max(above_block(yes)).max(above_block(no)),
        Right::Loop {
            start,
            params,
            test,
            body,
            ..
        } => above_vars(start)
            .max(above_vars(params))
            .max(above_block(test))
            .max(above_block(body)),
        Right::With(w) => above_with(w),
        Right::Parted(p) => above_parted(p),
        _ => above_vars(right.operands().as_slice()),
    }
}

#[cycle(fresh)]
fn above_with(with: &WithLoop) -> u64
    ensures { result ≡ Rattle.core_subst.specs.Names.above_right (with_term with.now) }
{
    let mut number = above_vars(with.op.operands().as_slice());
    for generator in &with.gens {
        number = number
            .max(above_head(generator))
            .max(above_var(generator.index))
            .max(above_vars(&generator.names))
            .max(above_block(&generator.body));
    }
    number
}

#[cycle(fresh)]
fn above_parted(parted: &PartedLoop) -> u64
    ensures { result ≡ Rattle.core_subst.specs.Names.above_right (parted_term parted.now) }
{
    let mut number = above_vars(parted.op.operands().as_slice());
    for part in &parted.parts {
        number = number
            .max(above_var(part.index))
            .max(above_block(&part.body));
    }
    number
}
