//! Whether a term does not use a variable.

ghost use Rattle.std.specs.Prelude.{◌≡◌, option_to_list};
ghost use Rattle.core_ir.specs.View.{block_term, right_term, with_term, parted_term, gen_term, part_term};
ghost use Rattle.core_uses.specs.Tests.{none_is, head_avoided, is_avoided, is_avoided_right, gen_avoided, part_avoided};

use core_ir::{Block, CoreGen, CorePart, PartedLoop, Right, Var, WithLoop};

/// Whether none of the variables is this one.
pub fn avoids_all(x: Var, vars: &[Var]) -> bool
    ensures { result ≡ none_is x vars.now }
{
    for var in vars {
        if var.0 == x.0 {
            return false;
        }
    }
    true
}

/// Whether a block does not use a variable, nor a block in it.
#[cycle(avoiding)]
pub fn avoids(x: Var, block: &Block) -> bool
    ensures { result ≡ is_avoided x (block_term block.now) }
{
    for binding in &block.lets {
        if !avoids_right(x, &binding.right) {
            return false;
        }
    }
    avoids_all(x, &block.results)
}

/// Whether a right side does not use a variable, nor a block in it.
#[cycle(avoiding)]
pub fn avoids_right(x: Var, right: &Right) -> bool
    ensures { result ≡ is_avoided_right x (right_term right.now) }
{
    match right {
        Right::If { cond, yes, no } => {
            avoids_all(x, &[*cond]) && avoids(x, yes) && avoids(x, no)
        }
        Right::Loop {
            start,
            test,
            body,
            ..
        } => avoids_all(x, start) && avoids(x, test) && avoids(x, body),
        Right::With(w) => avoids_with(x, w),
        Right::Parted(p) => avoids_parted(x, p),
        other => avoids_all(x, other.operands().as_slice()),
    }
}

#[cycle(avoiding)]
fn avoids_with(x: Var, with: &WithLoop) -> bool
    ensures { result ≡ is_avoided_right x (with_term with.now) }
{
    if !avoids_all(x, with.op.operands().as_slice()) {
        return false;
    }
    for generator in &with.gens {
        if !avoids_gen(x, generator) {
            return false;
        }
    }
    true
}

#[cycle(avoiding)]
fn avoids_gen(x: Var, generator: &CoreGen) -> bool
    ensures { result ≡ gen_avoided x (gen_term generator.now) }
{
    avoids_head(x, generator) && avoids(x, &generator.body)
}

#[cycle(avoiding)]
fn avoids_parted(x: Var, parted: &PartedLoop) -> bool
    ensures { result ≡ is_avoided_right x (parted_term parted.now) }
{
    if !avoids_all(x, parted.op.operands().as_slice()) {
        return false;
    }
    for part in &parted.parts {
        if !avoids_part(x, part) {
            return false;
        }
    }
    true
}

#[cycle(avoiding)]
fn avoids_part(x: Var, part: &CorePart) -> bool
    ensures { result ≡ part_avoided x (part_term part.now) }
{
    avoids(x, &part.body)
}

fn avoids_head(x: Var, generator: &CoreGen) -> bool
    ensures { result ≡ head_avoided x (gen_term generator.now).head }
{
    avoids_option(x, generator.lower)
        && avoids_option(x, generator.upper)
        && avoids_option(x, generator.step)
        && avoids_option(x, generator.width)
}

fn avoids_option(x: Var, var: Option<Var>) -> bool
    ensures { result ≡ none_is x (option_to_list var) }
{
    match var {
        Some(y) => avoids_all(x, &[y]),
        None => true,
    }
}
